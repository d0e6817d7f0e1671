//! Where what is named is defined (LSP 3.17, "Goto Definition Request").
ghost use Rattle.std.specs.Prelude.{◌≡◌, List, [], ◌∷◌, Some, IfOk};
ghost use Rattle.gq_index.specs.Indexed.{IsIndexOf, IsIndexOfProject};
ghost use Rattle.gq_index.specs.Occurrences.{DefinitionOf};
ghost use Rattle.gq_known.specs.Known.{IsKnown};
ghost use Rattle.gq_mentions.specs.declared.mention.MentionKind.TheVariants as kind;
ghost use Rattle.gq_mentions.specs.Views.{mention_view};
ghost use Rattle.gq_query.specs.Definitions.{IsDefinitionOf, AreDefinitions};
ghost use Rattle.gq_query.specs.Helping.Own.{all_definitions};
ghost use Rattle.gq_query.specs.Order.{AreExactly};
ghost use Rattle.gq_query.specs.References.{IsDeclaration};

use crate::asking::asked;
use crate::schemas::{field_place_by_schema, type_place_by_schema};
use crate::wanted::{Wanted, wanted_places};
use gq_index::laws::documents_have_one_list;
use gq_index::{Index, Occurrence};
use gq_known::{Known, Learned};
use gq_mentions::{Mention, MentionKind};
use gq_project::Project;
use gq_schema::laws::documents_have_one_type_system;
use gq_text::NoMemory;
use std::alloc::Global;

/// The name tokens of the definitions of what stands at the offset, in bytes, of the document of that key: in the order
/// of documents and places, each once.
pub fn definition(
    alloc: Global,
    project: &Project,
    key: &str,
    offset: usize,
) -> Result<Vec<Occurrence>, NoMemory>
    ensures { IfOk result (λ found. AreDefinitions project.now key.now offset found.items) }
{
    let learned = Learned::of(alloc, project)?;
    let index = Index::of_readings(alloc, project.documents(), &learned.readings)?;
    let found = definition_by(alloc, learned.known(project), &index, key, offset)?;
    Ok(found)
}

/// The same of a project of which that is known, by its index.
pub fn definition_by(
    alloc: Global,
    known: Known<'_>,
    index: &Index,
    key: &str,
    offset: usize,
) -> Result<Vec<Occurrence>, NoMemory>
    ensures { IfOk result (λ found. IsKnown known.entry → IsIndexOfProject known.entry.project.now index.now
        → AreDefinitions known.entry.project.now key.now offset found.items) }
{
    documents_have_one_list();
    match asked(alloc, known, index, key, offset)? {
        Some(mention) => {
            let found = definition_of(alloc, known, index, &mention)?;
            Ok(found)
        }
        None => Ok(Vec::new(alloc)),
    }
}

/// Where what is named is defined.
fn definition_of(
    alloc: Global,
    known: Known<'_>,
    index: &Index,
    mention: &Mention<'_>,
) -> Result<Vec<Occurrence>, NoMemory>
    ensures { IfOk result (λ found. IsKnown known.entry → IsIndexOf (all_definitions known.entry.readings.now) index.now
        → AreExactly (IsDefinitionOf known.entry.project.now (all_definitions known.entry.readings.now) (mention_view mention.now).kind (mention_view mention.now)) found.items) }
{
    match mention.kind {
        MentionKind::Fragment => declarations_of(alloc, index, mention),
        MentionKind::Variable => declarations_of(alloc, index, mention),
        MentionKind::Field => field_definition(alloc, known, index, mention),
        MentionKind::Condition => condition_definition(alloc, known, mention),
    }
}

/// Where the fragment or the variable is declared.
fn declarations_of(
    alloc: Global,
    index: &Index,
    mention: &Mention<'_>,
) -> Result<Vec<Occurrence>, NoMemory>
    ensures { IfOk result (λ found. (ds : List DefinitionOf) → IsIndexOf ds index.now
        → AreExactly (IsDeclaration ds (mention_view mention.now).kind (mention_view mention.now).name.text (mention_view mention.now).definition) found.items) }
{
    let wanted = Wanted {
        uses: false,
        declarations: true,
    };
    wanted_places(alloc, index, mention, wanted)
}

/// Where the field is defined.
fn field_definition(
    alloc: Global,
    known: Known<'_>,
    index: &Index,
    mention: &Mention<'_>,
) -> Result<Vec<Occurrence>, NoMemory>
    ensures { IfOk result (λ found. IsKnown known.entry → IsIndexOf (all_definitions known.entry.readings.now) index.now
        → AreExactly (IsDefinitionOf known.entry.project.now (all_definitions known.entry.readings.now) kind.Field (mention_view mention.now)) found.items) }
{
    documents_have_one_type_system();
    let place = field_place_by_schema(alloc, known, index, mention)?;
    at_most_one(alloc, place)
}

/// Where the type is defined.
fn condition_definition(
    alloc: Global,
    known: Known<'_>,
    mention: &Mention<'_>,
) -> Result<Vec<Occurrence>, NoMemory>
    ensures { IfOk result (λ found. (ds : List DefinitionOf) → IsKnown known.entry
        → AreExactly (IsDefinitionOf known.entry.project.now ds kind.Condition (mention_view mention.now)) found.items) }
{
    documents_have_one_type_system();
    let place = type_place_by_schema(known, mention.name.text.as_str());
    at_most_one(alloc, place)
}

/// The place alone, where there is one.
fn at_most_one(alloc: Global, place: Option<Occurrence>) -> Result<Vec<Occurrence>, NoMemory>
    ensures { IfOk result (λ found. AreExactly (λ o. place ≡ Some o) found.items) }
{
    match place {
        Some(place) => one_alone(alloc, place),
        None => Ok(Vec::new(alloc)),
    }
}

fn one_alone(alloc: Global, place: Occurrence) -> Result<Vec<Occurrence>, NoMemory>
    ensures { IfOk result (λ found. found.items ≡ place ∷ []) }
{
    let mut found = Vec::new(alloc);
    found.push(place)?;
    Ok(found)
}
