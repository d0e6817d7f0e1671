//! Where a fragment or a variable is used and declared in a project, by its index.
ghost use Rattle.std.specs.Prelude.{◌≡◌, ◌↔◌, ◌++◌, ℕ, List, Contains, IfOk, OnOk};
ghost use Rattle.gq_index.specs.declared.occurrence.Occurrence.{Occurrence};
ghost use Rattle.gq_index.specs.Indexed.{IsIndexOf};
ghost use Rattle.gq_index.specs.Occurrences.{DefinitionOf, fragment_definitions, fragment_spreads};
ghost use Rattle.gq_mentions.specs.Views.{mention_view};
ghost use Rattle.gq_query.specs.Helping.Gathered.{if_wanted, wanted_among};
ghost use Rattle.gq_query.specs.Order.{AreExactly};
ghost use Rattle.gq_query.specs.Helping.Wants.{IsWanted};

use crate::groups::put_wanted;
use crate::order::in_order;
use gq_index::{Index, Occurrence};
use gq_mentions::{Mention, MentionKind};
use gq_text::NoMemory;
use std::alloc::Global;

/// Which places of a name are wanted.
#[derive(Clone, Copy)]
pub(crate) struct Wanted {
    pub(crate) uses: bool,
    pub(crate) declarations: bool,
}

/// The wanted places of the fragment or the variable, in order, each once; none of a field or a type.
pub(crate) fn wanted_places(
    alloc: Global,
    index: &Index,
    mention: &Mention<'_>,
    wanted: Wanted,
) -> Result<Vec<Occurrence>, NoMemory>
    ensures { IfOk result (λ found. (ds : List DefinitionOf) → IsIndexOf ds index.now
        → AreExactly (IsWanted ds wanted.uses wanted.declarations (mention_view mention.now)) found.items) }
{
    let places = places_by(alloc, index, mention, wanted)?;
    let found = in_order(alloc, &places)?;
    Ok(found)
}

/// The same in any order.
fn places_by(
    alloc: Global,
    index: &Index,
    mention: &Mention<'_>,
    wanted: Wanted,
) -> Result<Vec<Occurrence>, NoMemory>
    ensures { IfOk result (λ all. (ds : List DefinitionOf) → IsIndexOf ds index.now → (o : _) →
        Contains all.items o ↔ IsWanted ds wanted.uses wanted.declarations (mention_view mention.now) o) }
{
    let name = mention.name.text.as_str();
    match mention.kind {
        MentionKind::Fragment => fragment_places(alloc, index, name, wanted),
        MentionKind::Variable => {
            let group = index.variable_group(alloc, mention.definition, name)?;
            variable_places(alloc, index, &group, name, wanted)
        }
        MentionKind::Field => Ok(Vec::new(alloc)),
        MentionKind::Condition => Ok(Vec::new(alloc)),
    }
}

/// Those of a fragment.
fn fragment_places(
    alloc: Global,
    index: &Index,
    name: &str,
    wanted: Wanted,
) -> Result<Vec<Occurrence>, NoMemory>
    ensures { IfOk result (λ all. (ds : List DefinitionOf) → IsIndexOf ds index.now
        → all.items ≡ if_wanted wanted.uses (fragment_spreads ds name.now) ++ if_wanted wanted.declarations (fragment_definitions ds name.now)) }
{
    let mut all = Vec::new(alloc);
    put_if(wanted.uses, index.spreads(name), &mut all)?;
    put_if(wanted.declarations, index.definitions(name), &mut all)?;
    Ok(all)
}

/// Those of a variable in the definitions of these numbers.
fn variable_places(
    alloc: Global,
    index: &Index,
    numbers: &[usize],
    name: &str,
    wanted: Wanted,
) -> Result<Vec<Occurrence>, NoMemory>
    ensures { IfOk result (λ all. (ds : List DefinitionOf) → IsIndexOf ds index.now
        → all.items ≡ wanted_among ds name.now wanted.uses wanted.declarations numbers.now) }
{
    let mut all = Vec::new(alloc);
    put_wanted(index, numbers, name, wanted, &mut all)?;
    Ok(all)
}

/// Puts the places behind the others if they are wanted.
fn put_if(wanted: bool, places: &[Occurrence], all: &mut Vec<Occurrence>) -> Result<(), NoMemory>
    ensures { OnOk result (all.new.items ≡ all.old.items ++ if_wanted wanted places.now) }
{
    if wanted {
        all.extend_from_slice(places)?;
    }
    Ok(())
}
