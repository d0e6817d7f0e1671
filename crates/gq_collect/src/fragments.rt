//! The fragments of a project's documents, found by their names.
ghost use Rattle.std.specs.Prelude.{◌≡◌, IfOk, map};
ghost use Rattle.std.specs.Option.{option_map};
ghost use Rattle.gq_document.specs.Definitions.{fragment_view, fragments_view};
ghost use Rattle.gq_meaning.specs.Expand.{find_definition};
ghost use Rattle.gq_collect.specs.Fragments.{definition_of};

use gq_document::FragmentEntry;
use gq_names::NameList;
use gq_text::NoMemory;
use std::alloc::Global;

/// Fragments in the order of their documents and places; the first of a name is found by it.
#[derive(Drop)]
pub struct Fragments<'a> {
    all: &'a [FragmentEntry<'a>],
    names: NameList,
    ghost are_named: { names ≡ map (λ f. f.definition.now.name.text) all.now },
}

impl<'a> Fragments<'a> {
    /// These fragments.
    pub fn of(alloc: Global, all: &'a [FragmentEntry<'a>]) -> Result<Fragments<'a>, NoMemory>
        ensures { IfOk result (λ fragments. fragments.all.now ≡ all.now) }
    {
        let names = fragment_names(alloc, all)?;
        Ok(Fragments { all, names })
    }

    /// The first fragment of that name.
    pub fn named(&self, name: &str) -> Option<&'a FragmentEntry<'a>>
        ensures { option_map (λ f. definition_of (fragment_view f.now)) result ≡ find_definition (map definition_of (fragments_view self.now.all.now)) name.now }
    {
        match self.names.place(name) {
            Some(place) => Some(&self.all[place]),
            None => None,
        }
    }
}

fn fragment_names(alloc: Global, all: &[FragmentEntry<'_>]) -> Result<NameList, NoMemory>
    ensures { IfOk result (λ names. names ≡ map (λ f. f.definition.now.name.text) all.now) }
{
    let mut names = NameList::new(alloc);
    for fragment in all {
        names.add(fragment.definition.name.text.as_str())?;
    }
    Ok(names)
}
