//! Arguments and variables coerced to their types (GraphQL, October 2021, sections 6.1.2 and 6.4.1).
ghost use Rattle.std.specs.Prelude.{◌≡◌, suc, IfOk, map};
ghost use Rattle.std.specs.Option.{option_map};
ghost use Rattle.gq_tree.specs.Plain.{erase_values};
ghost use Rattle.gq_tree.specs.Views.{input_view, argument_view, variable_view};
ghost use Rattle.gq_types.specs.Look.{types_view};
ghost use Rattle.gq_table.specs.Views.{entry_view, entries_view};
ghost use Rattle.gq_coerce.specs.Coerced.{entries_of};
ghost use Rattle.gq_coerce.specs.Literals.{input_count, coerced_arguments};
ghost use Rattle.gq_coerce.specs.Variables.{variable_part, coerced_variables};
ghost use Rattle.gq_coerce.specs.Helping.Views.{setting_view};

use crate::coerced::{in_order, put_coerced};
use crate::inputs::{default_limit, references};
use crate::literals::input_entries;
use crate::parts::parts_of_arguments;
use crate::raw::raw_input;
use crate::setting::Setting;
use crate::values::{Variables, entry_named, entry_names};
use gq_table::Entry;
use gq_text::NoMemory;
use gq_tree::{Argument, InputValueDefinition, VariableDefinition};
use gq_types::Types;
use std::alloc::Global;

/// A type system that values are coerced by.
#[derive(Clone, Copy)]
pub struct Coercion<'a> {
    types: &'a Types,
    limit: u128,
    ghost limit_is: { limit ≡ suc (input_count (types_view types.now)) },
}

impl<'a> Coercion<'a> {
    /// Coercion by this type system. It goes over all its definitions.
    pub fn of(types: &'a Types) -> Coercion<'a>
        ensures { types_view result.types.now ≡ types_view types.now }
    {
        let limit = default_limit(types);
        Coercion { types, limit }
    }

    /// The type system.
    pub fn types(self) -> &'a Types
        ensures { types_view result.now ≡ types_view self.entry.types.now }
    {
        self.types
    }

    /// The arguments of a field of these definitions, in the order of their names, where the variables have these values
    /// (section 6.4.1); nothing where one is at fault.
    pub fn arguments(
        self,
        alloc: Global,
        variables: &Variables,
        definitions: &[InputValueDefinition],
        arguments: &[Argument],
    ) -> Result<Option<Vec<Entry>>, NoMemory>
        ensures { IfOk result (λ o. option_map (λ es. entries_view es.items) o ≡ coerced_arguments (types_view self.entry.types.now)
            (entries_view variables.now) (map input_view definitions.now) (erase_values (map argument_view arguments.now))) }
    {
        let setting = Setting {
            types: self.types,
            variables: Some(variables),
            limit: self.limit,
        };
        let definitions = references(alloc, definitions)?;
        let parts = parts_of_arguments(alloc, arguments)?;
        let entries = input_entries(alloc, setting, &definitions, &parts)?;
        Ok(entries)
    }

    /// The values of variables of these definitions for which raw values are given (section 6.1.2); nothing where one is at
    /// fault.
    pub fn variables(
        self,
        alloc: Global,
        definitions: &[VariableDefinition],
        raw: &[Entry],
    ) -> Result<Option<Variables>, NoMemory>
        ensures { IfOk result (λ o. option_map (λ v. entries_view v) o ≡ coerced_variables (types_view self.entry.types.now) (map variable_view definitions.now) (entries_view raw.now)) }
    {
        let setting = Setting {
            types: self.types,
            variables: None,
            limit: self.limit,
        };
        match variable_entries(alloc, setting, definitions, raw)? {
            Some(entries) => Ok(Some(Variables::of(alloc, entries)?)),
            None => Ok(None),
        }
    }
}

/// The values of variables, in the order of their names.
fn variable_entries(
    alloc: Global,
    setting: Setting,
    definitions: &[VariableDefinition],
    raw: &[Entry],
) -> Result<Option<Vec<Entry>>, NoMemory>
    ensures { IfOk result (λ o. option_map (λ es. map entry_view es.items) o ≡ entries_of
        (map (variable_part (setting_view setting.entry) (entries_view raw.now)) (map variable_view definitions.now))) }
{
    let names = entry_names(alloc, raw)?;
    let mut entries = Vec::new(alloc);
    let mut left = definitions.len();
    'variables: while left > 0 {
        left -= 1;
        let definition = &definitions[left];
        let name = definition.variable.name.text.as_str();
        let value = entry_named(raw, &names, name);
        let type_ref = &definition.type_ref;
        let coerced = raw_input(alloc, setting, type_ref, &definition.default, value)?;
        if !put_coerced(alloc, &mut entries, name, coerced)? {
            return Ok(None);
        }
    }
    Ok(Some(in_order(entries)?))
}
