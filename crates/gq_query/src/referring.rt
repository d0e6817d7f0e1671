//! Where fragments and variables are used (LSP 3.17, "Find References Request").
ghost use Rattle.std.specs.Prelude.{List, IfOk};
ghost use Rattle.gq_index.specs.Indexed.{IsIndexOf, IsIndexOfProject};
ghost use Rattle.gq_index.specs.Occurrences.{DefinitionOf};
ghost use Rattle.gq_known.specs.Known.{IsKnown};
ghost use Rattle.gq_mentions.specs.Views.{mention_view};
ghost use Rattle.gq_query.specs.Order.{AreExactly};
ghost use Rattle.gq_query.specs.References.{IsReference, AreReferences};

use crate::asking::asked;
use crate::wanted::{Wanted, wanted_places};
use gq_index::laws::documents_have_one_list;
use gq_index::{Index, Occurrence};
use gq_known::{Known, Learned};
use gq_mentions::Mention;
use gq_project::Project;
use gq_text::NoMemory;
use std::alloc::Global;

/// The name tokens at which what stands at the offset, in bytes, of the document of that key is used and, where they are
/// asked for, those of its definitions: in the order of documents and places, each once.
pub fn references(
    alloc: Global,
    project: &Project,
    key: &str,
    offset: usize,
    include_declaration: bool,
) -> Result<Vec<Occurrence>, NoMemory>
    ensures { IfOk result (λ found. AreReferences project.now key.now offset include_declaration found.items) }
{
    let learned = Learned::of(alloc, project)?;
    let index = Index::of_readings(alloc, project.documents(), &learned.readings)?;
    let known = learned.known(project);
    let found = references_by(alloc, known, &index, key, offset, include_declaration)?;
    Ok(found)
}

/// The same of a project of which that is known, by its index.
pub fn references_by(
    alloc: Global,
    known: Known<'_>,
    index: &Index,
    key: &str,
    offset: usize,
    include_declaration: bool,
) -> Result<Vec<Occurrence>, NoMemory>
    ensures { IfOk result (λ found. IsKnown known.entry → IsIndexOfProject known.entry.project.now index.now
        → AreReferences known.entry.project.now key.now offset include_declaration found.items) }
{
    documents_have_one_list();
    match asked(alloc, known, index, key, offset)? {
        Some(mention) => {
            let found = references_of(alloc, index, &mention, include_declaration)?;
            Ok(found)
        }
        None => Ok(Vec::new(alloc)),
    }
}

/// The references to what is named.
fn references_of(
    alloc: Global,
    index: &Index,
    mention: &Mention<'_>,
    declared: bool,
) -> Result<Vec<Occurrence>, NoMemory>
    ensures { IfOk result (λ found. (ds : List DefinitionOf) → IsIndexOf ds index.now → AreExactly (IsReference ds declared (mention_view mention.now)) found.items) }
{
    let wanted = Wanted {
        uses: true,
        declarations: declared,
    };
    wanted_places(alloc, index, mention, wanted)
}
