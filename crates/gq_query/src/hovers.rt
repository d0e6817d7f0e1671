//! What a hover tells (LSP 3.17, "Hover Request").
ghost use Rattle.std.specs.Prelude.{IfOk};
ghost use Rattle.gq_index.specs.Indexed.{IsIndexOf, IsIndexOfProject};
ghost use Rattle.gq_known.specs.Known.{IsKnown};
ghost use Rattle.gq_mentions.specs.Views.{mention_view};
ghost use Rattle.gq_query.specs.Helping.Own.{all_definitions};
ghost use Rattle.gq_query.specs.Hovers.{IsToldOf, IsHoverOf, IsHover};

use crate::asking::asked;
use crate::fragments::fragment_told;
use crate::schemas::{condition_told_by_schema, field_told_by_schema};
use crate::told::Hover;
use crate::variables::variable_told;
use gq_index::Index;
use gq_index::laws::documents_have_one_list;
use gq_known::{Known, Learned};
use gq_mentions::{Mention, MentionKind};
use gq_project::Project;
use gq_text::{NoMemory, OwnedText};
use std::alloc::Global;

/// What is told at the offset, in bytes, of the document of that key.
pub fn hover(
    alloc: Global,
    project: &Project,
    key: &str,
    offset: usize,
) -> Result<Option<Hover>, NoMemory>
    ensures { IfOk result (IsHover project.now key.now offset) }
{
    let learned = Learned::of(alloc, project)?;
    let index = Index::of_readings(alloc, project.documents(), &learned.readings)?;
    let found = hover_by(alloc, learned.known(project), &index, key, offset)?;
    Ok(found)
}

/// The same of a project of which that is known, by its index.
pub fn hover_by(
    alloc: Global,
    known: Known<'_>,
    index: &Index,
    key: &str,
    offset: usize,
) -> Result<Option<Hover>, NoMemory>
    ensures { IfOk result (λ found. IsKnown known.entry → IsIndexOfProject known.entry.project.now index.now → IsHover known.entry.project.now key.now offset found) }
{
    documents_have_one_list();
    match asked(alloc, known, index, key, offset)? {
        Some(mention) => {
            let found = hover_of(alloc, known, index, &mention)?;
            Ok(found)
        }
        None => Ok(None),
    }
}

/// What is told of what is named, at its name token.
fn hover_of(
    alloc: Global,
    known: Known<'_>,
    index: &Index,
    mention: &Mention<'_>,
) -> Result<Option<Hover>, NoMemory>
    ensures { IfOk result (λ found. IsKnown known.entry → IsIndexOf (all_definitions known.entry.readings.now) index.now
        → IsHoverOf known.entry.project.now (all_definitions known.entry.readings.now) (mention_view mention.now) found) }
{
    match told_of(alloc, known, index, mention)? {
        Some(value) => Ok(Some(Hover {
            value,
            span: mention.name.span,
        })),
        None => Ok(None),
    }
}

fn told_of(
    alloc: Global,
    known: Known<'_>,
    index: &Index,
    mention: &Mention<'_>,
) -> Result<Option<OwnedText>, NoMemory>
    ensures { IfOk result (λ told. IsKnown known.entry → IsIndexOf (all_definitions known.entry.readings.now) index.now
        → IsToldOf known.entry.project.now (all_definitions known.entry.readings.now) (mention_view mention.now).kind (mention_view mention.now) told) }
{
    match mention.kind {
        MentionKind::Fragment => {
            fragment_told(alloc, known.readings, index, mention.name.text.as_str())
        }
        MentionKind::Variable => variable_told(alloc, known.readings, index, mention),
        MentionKind::Field => field_told_by_schema(alloc, known, index, mention),
        MentionKind::Condition => {
            condition_told_by_schema(alloc, known, mention.name.text.as_str())
        }
    }
}
