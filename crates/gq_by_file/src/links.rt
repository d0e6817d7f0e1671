//! Which files the spreads of a file lead to.
ghost use Rattle.std.specs.Prelude.{◌≡◌, ◌++◌, [], IfOk, OnOk, flat_map, map};
ghost use Rattle.gq_graph.specs.Reach.{InRange};
ghost use Rattle.gq_names.specs.UnderNames.{items_under};
ghost use Rattle.gq_types.specs.Entries.{Text};
ghost use Rattle.gq_spreads.specs.Helping.Rows.{row_items};
ghost use Rattle.gq_by_file.specs.Helping.Links.{files_from, links_among, linked_by, named_in};

use crate::names::FileNames;
use gq_names::ByName;
use gq_text::{NoMemory, SmallText};
use std::alloc::Global;

/// For each file, the numbers of the files with fragments that are spread in it; or nothing, where that is not known.
#[derive(Drop)]
pub struct Links {
    pub rows: Vec<Vec<usize>>,
    ghost in_range: { InRange rows.items },
}

impl Links {
    /// Nothing is known.
    pub fn none(alloc: Global) -> Links
        ensures { result.rows.items ≡ [] }
    {
        Links {
            rows: Vec::new(alloc),
        }
    }

    /// Nothing is known any more.
    pub fn forget(&mut self)
        ensures { self.new.rows.items ≡ [] }
    {
        self.rows.clear();
    }
}

/// The numbers of the files, under the names of the fragments that they define.
fn fragment_files(alloc: Global, names: &[FileNames]) -> Result<ByName<usize>, NoMemory>
    ensures { IfOk result (λ table. (text : Text) → items_under table text ≡ files_from 0 text names.now) }
{
    let mut table = ByName::new(alloc);
    for (file, one) in names.iter().enumerate() {
        put_fragments(&one.fragments, file, &mut table)?;
    }
    Ok(table)
}

/// Puts the number of a file under each of these names.
fn put_fragments(
    fragments: &[SmallText],
    file: usize,
    table: &mut ByName<usize>,
) -> Result<(), NoMemory>
    ensures { OnOk result ((text : Text) → items_under table.new text ≡ items_under table.old text ++ named_in file text fragments.now) }
{
    for name in fragments {
        table.put(name.as_str(), file)?;
    }
    Ok(())
}

/// For each file, the numbers of the files with fragments that are spread in it.
pub(crate) fn links_of(alloc: Global, names: &[FileNames]) -> Result<Links, NoMemory>
    ensures { IfOk result (λ links. row_items links.rows.items ≡ links_among names.now) }
{
    let table = fragment_files(alloc, names)?;
    let rows = link_rows(alloc, names, &table)?;
    Ok(Links { rows })
}

/// The same by the table of fragments.
fn link_rows(
    alloc: Global,
    names: &[FileNames],
    table: &ByName<usize>,
) -> Result<Vec<Vec<usize>>, NoMemory>
    ensures { IfOk result (λ rows. row_items rows.items ≡ map (linked_by table.now) names.now) }
{
    let mut rows = Vec::with_capacity(alloc, names.len())?;
    for one in names {
        rows.push(linked(alloc, &one.spreads, table)?)?;
    }
    Ok(rows)
}

/// The numbers under these names.
fn linked(
    alloc: Global,
    spreads: &[SmallText],
    table: &ByName<usize>,
) -> Result<Vec<usize>, NoMemory>
    ensures { IfOk result (λ files. files.items ≡ flat_map (λ text. items_under table.now text) spreads.now) }
{
    let mut files = Vec::new(alloc);
    for name in spreads {
        files.extend_from_slice(table.get(name.as_str()))?;
    }
    Ok(files)
}
