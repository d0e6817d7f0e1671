//! What a refactoring is asked of.
ghost use Rattle.std.specs.Prelude.{◌≡◌, IfOk};
ghost use Rattle.std.specs.Option.{option_map};
ghost use Rattle.gq_types.specs.Look.{types_view};
ghost use Rattle.gq_tree.specs.Readings.{definitions_read, parsed_view};
ghost use Rattle.gq_document.specs.SetViews.{sets_view};
ghost use Rattle.gq_select.specs.Meant.{document_sets, meant};
ghost use Rattle.gq_select.specs.Views.{is_of_kind, standing_view};
ghost use Rattle.gq_reshape.specs.Asks.{tree_at};
ghost use Rattle.gq_reshape.specs.Helping.About.{sets_of_asked};

use gq_document::{SetIn, sets_in};
use gq_index::Index;
use gq_known::Known;
use gq_project::Doc;
use gq_rules::Valid;
use gq_select::{SelectionKind, Standing, meant};
use gq_text::{NoMemory, Span};
use gq_tree::Parsed;
use gq_types::Types;
use std::alloc::Global;

/// A range of a document of a valid project, in bytes, its end left out, with what is known of the project.
#[derive(Clone, Copy)]
pub(crate) struct Asked<'a> {
    pub(crate) valid: &'a Valid,
    /// What its documents read as, and their type system.
    pub(crate) known: Known<'a>,
    /// Where its fragments stand.
    pub(crate) index: &'a Index,
    /// The key of the document, its number from 0, and the document.
    pub(crate) key: &'a str,
    pub(crate) file: usize,
    pub(crate) document: &'a Doc,
    pub(crate) range: Span,
}

/// The selection sets of a document as it is read.
fn sets_read<'a>(
    alloc: Global,
    types: &'a Types,
    reading: &'a Parsed,
) -> Result<Vec<SetIn<'a>>, NoMemory>
    ensures { IfOk result (λ sets. sets_view sets.items ≡ document_sets (types_view types.now) (definitions_read (parsed_view reading.now))) }
{
    match reading {
        Parsed::Tree(document) => sets_in(alloc, types, document),
        Parsed::Syntax { .. } => Ok(Vec::new(alloc)),
        Parsed::Limit { .. } => Ok(Vec::new(alloc)),
    }
}

/// The selection sets of the document that is asked of.
pub(crate) fn sets_of(alloc: Global, asked: Asked<'_>) -> Result<Vec<SetIn<'_>>, NoMemory>
    ensures { IfOk result (λ sets. sets_view sets.items ≡ sets_of_asked asked.entry) }
{
    match asked.known.readings.get(asked.file) {
        Some(reading) => sets_read(alloc, asked.known.types, reading),
        None => Ok(Vec::new(alloc)),
    }
}

/// The selection of that kind that the range means.
pub(crate) fn meant_in(
    alloc: Global,
    asked: Asked<'_>,
    kind: SelectionKind,
) -> Result<Option<Standing<'_>>, NoMemory>
    ensures { IfOk result (λ found. meant (is_of_kind kind) asked.entry.range (sets_of_asked asked.entry) ≡ option_map standing_view found) }
{
    let sets = sets_of(alloc, asked)?;
    Ok(meant(kind, asked.range, &sets))
}
