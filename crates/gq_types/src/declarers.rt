//! The types that declare an interface, by its name.
ghost use Rattle.std.specs.Prelude.{◌≡◌, ◌++◌, IfOk, OnOk, map};
ghost use Rattle.std.specs.List.{list_any};
ghost use Rattle.std.specs.Str.{bytes_eq};
ghost use Rattle.gq_names.specs.UnderNames.{items_under, one_if};
ghost use Rattle.gq_types.specs.Entries.{Text};
ghost use Rattle.gq_types.specs.Declarers.{declaring_from};

use crate::parts::Parts;
use gq_names::{ByName, NameList};
use gq_text::NoMemory;
use std::alloc::Global;

/// For each name of an interface the numbers of the parts that have it.
pub(crate) fn declarers_of(alloc: Global, parts: &[Parts]) -> Result<ByName<usize>, NoMemory>
    ensures { IfOk result (λ d. (text : Text) → items_under d text ≡ declaring_from 0 (map (λ p. p.interfaces) parts.now) text) }
{
    let mut all = ByName::new(alloc);
    for (number, one) in parts.iter().enumerate() {
        put_each(&mut all, &one.interfaces, number)?;
    }
    Ok(all)
}

/// Puts the number under each of the names, once where a name stands there twice.
fn put_each(all: &mut ByName<usize>, names: &NameList, number: usize) -> Result<(), NoMemory>
    ensures { OnOk result ((text : Text) → items_under all.new text ≡ items_under all.old text ++ one_if (list_any (bytes_eq text) names.now) number) }
{
    for place in 0..names.len() {
        let name = names.get(place);
        if names.place(name) == Some(place) {
            all.put(name, number)?;
        }
    }
    Ok(())
}
