//! Values that are given for an operation's variables (GraphQL, October 2021, section 6.1.2).
ghost use Rattle.std.specs.Prelude.{◌≡◌, Some, None, map, IfOk, IfErr, option_and_then};
ghost use Rattle.std.specs.Option.{option_map};
ghost use Rattle.serde_json.specs.Find.{as_object};
ghost use Rattle.serde_json.specs.View.{view};
ghost use Rattle.gq_table.specs.Views.{entry_view, entries_view};
ghost use Rattle.gq_table.specs.Json.{plain_entries, variables_of_json};
ghost use Rattle.gq_table.specs.declared.faults.VariablesFault.TheVariants.{Bad};

use crate::faults::VariablesFault;
use crate::json_values::read_plain_entries;
use crate::values::Entry;
use gq_text::NoMemory;
use serde_json::Value as Json;
use std::alloc::Global;

/// Values under the names of variables, in the order of the names.
#[derive(Drop)]
pub struct Variables {
    pub entries: Vec<Entry>,
}

impl Variables {
    /// The variables that a JSON object of plain values holds. `Bad` where it is no object, or a number in it is no integer
    /// of 64 bits.
    pub fn read(alloc: Global, value: &Json) -> Result<Variables, VariablesFault>
        ensures ok { IfOk result (λ variables. variables_of_json (view value.now) ≡ Some (entries_view variables.entries.items)) }
        ensures bad { IfErr result (λ fault. fault ≡ Bad → variables_of_json (view value.now) ≡ None) }
    {
        match read_entries(alloc, value)? {
            Some(entries) => Ok(Variables { entries }),
            None => Err(VariablesFault::Bad),
        }
    }
}

fn read_entries(alloc: Global, value: &Json) -> Result<Option<Vec<Entry>>, NoMemory>
    ensures { IfOk result (λ es. option_map (λ v. map entry_view v.items) es ≡ option_and_then plain_entries (as_object (view value.now))) }
{
    match value.as_object() {
        Some(members) => read_plain_entries(alloc, members),
        None => Ok(None),
    }
}
