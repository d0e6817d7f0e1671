//! The names of fragments, in which all fragments of a name are found.
ghost use Rattle.std.specs.Prelude.{◌≡◌, ◌<◌, ◌++◌, ◌∷◌, [], OnOk, IfOk, IfSome, length, map};
ghost use Rattle.std.specs.List.{list_any};
ghost use Rattle.std.specs.Str.{bytes_eq};
ghost use Rattle.gq_names.specs.UnderNames.{items_under};
ghost use Rattle.gq_types.specs.Entries.{Text};
ghost use Rattle.gq_document.specs.Definitions.{fragments_view};
ghost use Rattle.gq_spreads.specs.Helping.NameRows.{first_number};
ghost use Rattle.gq_spreads.specs.Spreads.{places_from};

use gq_document::FragmentEntry;
use gq_names::ByName;
use gq_text::{NoMemory, SmallText};
use std::alloc::Global;

/// The names of fragments in their order. A name may stand there more than once.
#[derive(Drop)]
pub struct FragmentNames {
    pub names: Vec<SmallText>,
    numbers: ByName<usize>,
    ghost found: { (text : Text) → items_under numbers text ≡ places_from 0 text names.items },
}

impl FragmentNames {
    /// The names of these fragments.
    pub fn of(alloc: Global, fragments: &[FragmentEntry<'_>]) -> Result<FragmentNames, NoMemory>
        ensures { IfOk result (λ names. names.names.items ≡ map (λ f. f.name.text) (fragments_view fragments.now)) }
    {
        let mut names = Vec::new(alloc);
        let mut numbers = ByName::new(alloc);
        for fragment in fragments {
            let name = fragment.definition.name.text.as_str();
            put_name(alloc, name, &mut names, &mut numbers)?;
        }
        Ok(FragmentNames { names, numbers })
    }

    /// Whether a fragment has that name. It takes no memory.
    pub fn contains(&self, name: &str) -> bool
        ensures { result ≡ list_any (bytes_eq name.now) self.now.names.items }
    {
        !self.numbers(name).is_empty()
    }

    /// The numbers of the fragments of that name, in order. It takes no memory.
    pub fn numbers(&self, name: &str) -> &[usize]
        ensures { result.now ≡ places_from 0 name.now self.now.names.items }
    {
        self.numbers.get(name)
    }

    /// The number of the first fragment of that name. It takes no memory.
    pub(crate) fn first_number(&self, name: &str) -> Option<usize>
        ensures is { result ≡ first_number self.now.names.items name.now }
        ensures within { IfSome result (λ number. number < length self.now.names.items) }
    {
        self.numbers(name).first().copied()
    }

    /// Puts the numbers of the fragments of that name behind the others, in order. Takes time for these alone.
    pub fn put_numbers(&self, name: &str, numbers: &mut Vec<usize>) -> Result<(), NoMemory>
        ensures { OnOk result (numbers.new.items ≡ numbers.old.items ++ places_from 0 name.now self.now.names.items) }
    {
        numbers.extend_from_slice(self.numbers(name))?;
        Ok(())
    }
}

/// Puts the name behind the others, and its place behind the numbers under it.
fn put_name(
    alloc: Global,
    name: &str,
    names: &mut Vec<SmallText>,
    numbers: &mut ByName<usize>,
) -> Result<(), NoMemory>
    requires { (text : Text) → items_under numbers.old text ≡ places_from 0 text names.old.items }
    ensures names { OnOk result (names.new.items ≡ names.old.items ++ name.now ∷ []) }
    ensures found { OnOk result ((text : Text) → items_under numbers.new text ≡ places_from 0 text names.new.items) }
{
    let number = names.len();
    names.push(SmallText::from_str(alloc, name)?)?;
    numbers.put(name, number)
}
