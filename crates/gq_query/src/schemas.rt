//! What the schema of a project tells of fields and types.
ghost use Rattle.std.specs.Prelude.{◌≡◌, Some, IfOk};
ghost use Rattle.std.specs.Option.{option_map};
ghost use Rattle.gq_types.specs.Look.{types_view, text_of};
ghost use Rattle.gq_document.specs.Selections.{field_on};
ghost use Rattle.gq_known.specs.Known.{IsKnown};
ghost use Rattle.gq_mentions.specs.Views.{mention_view};
ghost use Rattle.gq_query.specs.Parents.{parent_of};
ghost use Rattle.gq_query.specs.Places.{defined_field_place, type_place};
ghost use Rattle.gq_query.specs.Schemas.{BySchema};
ghost use Rattle.gq_index.specs.Indexed.{IsIndexOf};
ghost use Rattle.gq_query.specs.Helping.Own.{all_definitions};
ghost use Rattle.gq_query.specs.Words.{field_words, field_told, condition_told};

use crate::own::definition_at;
use crate::parents::parent_at;
use crate::places::{field_place, type_place};
use crate::words::{condition_words, field_words};
use gq_document::field_on;
use gq_index::{Index, Occurrence};
use gq_known::Known;
use gq_mentions::Mention;
use gq_schema::laws::documents_have_one_type_system;
use gq_text::{NoMemory, OwnedText};
use gq_tree::Parsed;
use gq_types::{Types, is_built_in_scalar};
use std::alloc::Global;
use std::sync::Arc;

/// The type system of the project, where no rule of it is broken.
fn schema_of<'a>(known: Known<'a>) -> Option<&'a Types>
    ensures { IsKnown known.entry → BySchema known.entry.project.now (λ es. Some es) (option_map (λ types. types_view types.now) result) }
{
    documents_have_one_type_system();
    if known.has_schema {
        Some(known.types)
    } else {
        None
    }
}

/// Where the field that is named is defined; nowhere without a schema.
pub(crate) fn field_place_by_schema(
    alloc: Global,
    known: Known<'_>,
    index: &Index,
    mention: &Mention<'_>,
) -> Result<Option<Occurrence>, NoMemory>
    ensures { IfOk result (λ place. IsKnown known.entry → IsIndexOf (all_definitions known.entry.readings.now) index.now
        → BySchema known.entry.project.now (λ es. defined_field_place es (all_definitions known.entry.readings.now) (mention_view mention.now)) place) }
{
    match schema_of(known) {
        Some(types) => defined_field_place(alloc, types, known.readings, index, mention),
        None => Ok(None),
    }
}

/// Where the type of that name is defined; nowhere without a schema.
pub(crate) fn type_place_by_schema(known: Known<'_>, name: &str) -> Option<Occurrence>
    ensures { IsKnown known.entry → BySchema known.entry.project.now (λ es. type_place es name.now) result }
{
    match schema_of(known) {
        Some(types) => type_place(types, name),
        None => None,
    }
}

/// What is told of the field that is named; nothing without a schema.
pub(crate) fn field_told_by_schema(
    alloc: Global,
    known: Known<'_>,
    index: &Index,
    mention: &Mention<'_>,
) -> Result<Option<OwnedText>, NoMemory>
    ensures { IfOk result (λ told. IsKnown known.entry → IsIndexOf (all_definitions known.entry.readings.now) index.now
        → BySchema known.entry.project.now (λ es. field_told es (all_definitions known.entry.readings.now) (mention_view mention.now)) told) }
{
    match schema_of(known) {
        Some(types) => field_told(alloc, types, known.readings, index, mention),
        None => Ok(None),
    }
}

/// What is told of the type of that name; nothing without a schema.
pub(crate) fn condition_told_by_schema(
    alloc: Global,
    known: Known<'_>,
    name: &str,
) -> Result<Option<OwnedText>, NoMemory>
    ensures { IfOk result (λ told. IsKnown known.entry → BySchema known.entry.project.now (λ es. condition_told es name.now) told) }
{
    match schema_of(known) {
        Some(types) => condition_told(alloc, types, name),
        None => Ok(None),
    }
}

/// The name of the type of the parent of the field that is named.
fn parent_of<'a>(
    alloc: Global,
    types: &'a Types,
    readings: &'a [Arc<Parsed>],
    index: &Index,
    mention: &Mention<'_>,
) -> Result<Option<&'a str>, NoMemory>
    ensures { IfOk result (λ parent. IsIndexOf (all_definitions readings.now) index.now
        → text_of parent ≡ parent_of (types_view types.now) (all_definitions readings.now) (mention_view mention.now)) }
{
    match definition_at(alloc, readings, index, mention.definition)? {
        Some(one) => parent_at(alloc, types, &one, mention.name.span),
        None => Ok(None),
    }
}

fn defined_field_place(
    alloc: Global,
    types: &Types,
    readings: &[Arc<Parsed>],
    index: &Index,
    mention: &Mention<'_>,
) -> Result<Option<Occurrence>, NoMemory>
    ensures { IfOk result (λ place. IsIndexOf (all_definitions readings.now) index.now
        → place ≡ defined_field_place (types_view types.now) (all_definitions readings.now) (mention_view mention.now)) }
{
    match parent_of(alloc, types, readings, index, mention)? {
        Some(type_name) => Ok(field_place(types, type_name, mention.name.text.as_str())),
        None => Ok(None),
    }
}

fn field_told(
    alloc: Global,
    types: &Types,
    readings: &[Arc<Parsed>],
    index: &Index,
    mention: &Mention<'_>,
) -> Result<Option<OwnedText>, NoMemory>
    ensures { IfOk result (λ told. IsIndexOf (all_definitions readings.now) index.now
        → told ≡ field_told (types_view types.now) (all_definitions readings.now) (mention_view mention.now)) }
{
    match parent_of(alloc, types, readings, index, mention)? {
        Some(type_name) => told_on(alloc, types, type_name, mention.name.text.as_str()),
        None => Ok(None),
    }
}

/// What is told of the field of that name of the type of that name.
fn told_on(
    alloc: Global,
    types: &Types,
    type_name: &str,
    name: &str,
) -> Result<Option<OwnedText>, NoMemory>
    ensures { IfOk result (λ told. told ≡ option_map (λ f. field_words type_name.now name.now f.type_ref) (field_on (types_view types.now) type_name.now name.now)) }
{
    match field_on(types, type_name, name) {
        Some(field) => Ok(Some(field_words(alloc, type_name, name, field)?)),
        None => Ok(None),
    }
}

fn condition_told(alloc: Global, types: &Types, name: &str) -> Result<Option<OwnedText>, NoMemory>
    ensures { IfOk result (λ told. told ≡ condition_told (types_view types.now) name.now) }
{
    if is_built_in_scalar(name) {
        return Ok(None);
    }
    match types.kind(name) {
        Some(kind) => Ok(Some(condition_words(alloc, name, kind)?)),
        None => Ok(None),
    }
}
