//! The root operation types of a schema definition with its extensions.
ghost use Rattle.std.specs.Prelude.{◌≡◌, ◌++◌, OnOk, IfOk, map};
ghost use Rattle.gq_tree.specs.Views.{root_view};
ghost use Rattle.gq_types.specs.Entries.{entry_view, entries_view};
ghost use Rattle.gq_type_system.specs.Helping.Groups.{at_number, roots_in_entry, roots_in_view};
ghost use Rattle.gq_types.specs.Joined.{put_in};
ghost use Rattle.gq_types.specs.Look.{types_view};
ghost use Rattle.gq_types.specs.Roots.{roots_of};

use gq_text::NoMemory;
use gq_tree::{RootOperationType, TypeSystemDefinition};
use gq_types::{Entry, Types};
use std::alloc::Global;

/// The type of a root operation, and the number of the document that it stands in.
#[derive(Clone, Copy)]
pub struct RootIn<'a> {
    pub file: usize,
    pub root: &'a RootOperationType,
}

fn put_roots<'a>(
    file: usize,
    more: &'a [RootOperationType],
    roots: &mut Vec<RootIn<'a>>,
) -> Result<(), NoMemory>
    ensures { OnOk result (roots_in_view roots.new.items ≡ roots_in_view roots.old.items ++ put_in file (map root_view more.now)) }
{
    for root in more {
        roots.push(RootIn { file, root })?;
    }
    Ok(())
}

fn put_roots_in<'a>(entry: &'a Entry, roots: &mut Vec<RootIn<'a>>) -> Result<(), NoMemory>
    ensures { OnOk result (roots_in_view roots.new.items ≡ roots_in_view roots.old.items ++ roots_in_entry (entry_view entry.now)) }
{
    match &*entry.definition {
        TypeSystemDefinition::Schema(one) => put_roots(entry.file, &one.roots, roots),
        TypeSystemDefinition::Type(_) | TypeSystemDefinition::Directive(_) => Ok(()),
    }
}

#[tactic(auto, using(crate::proofs::GroupLemmas::groups))]
fn put_roots_at<'a>(
    entries: &'a [Entry],
    number: usize,
    roots: &mut Vec<RootIn<'a>>,
) -> Result<(), NoMemory>
    ensures { OnOk result (roots_in_view roots.new.items ≡ roots_in_view roots.old.items ++ at_number roots_in_entry (entries_view entries.now) number) }
{
    match entries.get(number) {
        Some(entry) => put_roots_in(entry, roots),
        None => Ok(()),
    }
}

/// The types of root operations of the entries that belong to that number, in order (section 3.3.1).
#[tactic(auto, using(crate::proofs::GroupLemmas::groups))]
pub fn roots_of<'a>(
    alloc: Global,
    types: &'a Types,
    number: usize,
) -> Result<Vec<RootIn<'a>>, NoMemory>
    ensures { IfOk result (λ roots. roots_in_view roots.items ≡ roots_of (types_view types.now) number) }
{
    let entries = types.entries();
    let mut roots = Vec::new(alloc);
    let numbers = types.joined(number);
    for one in numbers {
        put_roots_at(entries, *one, &mut roots)?;
    }
    Ok(roots)
}
