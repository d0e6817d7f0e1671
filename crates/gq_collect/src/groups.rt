//! Fields in groups by their response keys (section 6.3.2).
ghost use Rattle.std.specs.Prelude.{◌≡◌, length, ◌++◌, ◌∷◌, [], List, IfOk, OnOk};
ghost use Rattle.gq_meaning.specs.Expand.{Asked};
ghost use Rattle.gq_collect.specs.Views.{asked_all, asked_of};
ghost use Rattle.gq_collect.specs.Groups.{AreGroups};

use crate::collect::Taken;
use gq_names::NameList;
use gq_text::NoMemory;
use std::alloc::Global;

/// Response keys in the order of their first occurrence, and for each of them its fields.
#[derive(Drop)]
pub struct Groups<'a> {
    pub keys: NameList,
    pub groups: Vec<Vec<Taken<'a>>>,
}

/// The fields by their keys.
pub fn grouped<'a>(alloc: Global, fields: &[Taken<'a>]) -> Result<Groups<'a>, NoMemory>
    ensures { IfOk result (λ all. AreGroups (asked_all fields.now) all.keys all.groups.items) }
{
    let mut keys = NameList::new(alloc);
    let mut groups = Vec::new(alloc);
    for field in fields {
        put(alloc, *field, &mut keys, &mut groups)?;
    }
    Ok(Groups { keys, groups })
}

fn put<'a>(
    alloc: Global,
    field: Taken<'a>,
    keys: &mut NameList,
    groups: &mut Vec<Vec<Taken<'a>>>,
) -> Result<(), NoMemory>
    requires { length groups.old.items ≡ length keys.old }
    ensures { OnOk result ((fields : List Asked) → AreGroups fields keys.old groups.old.items → AreGroups (fields ++ asked_of field.entry ∷ []) keys.new groups.new.items) }
{
    match keys.place(field.key) {
        Some(place) => {
            groups[place].push(field)?;
        }
        None => {
            let mut group = Vec::new(alloc);
            group.push(field)?;
            groups.push(group)?;
            let _ = keys.push(field.key)?;
        }
    }
    Ok(())
}
