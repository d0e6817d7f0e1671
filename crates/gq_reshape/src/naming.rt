//! Names for new fragments.
ghost use Rattle.std.specs.Prelude.{◌≡◌, ◌↔◌, [], List, IfOk, IsTrue};
ghost use Rattle.gq_index.specs.Indexed.{IsIndexOf};
ghost use Rattle.gq_index.specs.Occurrences.{DefinitionOf, executables, fragment_definitions};
ghost use Rattle.gq_tree.specs.Readings.{ParsedOf};
ghost use Rattle.gq_reshape.specs.Inline.{is_only_spread};
ghost use Rattle.gq_reshape.specs.Naming.{IsLeastFree, extracted_name};

use gq_index::Index;
use gq_text::{NoMemory, OwnedText};
use std::alloc::Global;

/// The name of the new fragment of that number.
pub(crate) fn extracted_name(alloc: Global, number: usize) -> Result<OwnedText, NoMemory>
    ensures { IfOk result (λ name. name ≡ extracted_name number) }
{
    let mut name = String::new(alloc);
    write!(name, "Extracted{number}")?;
    Ok(OwnedText::from_string(name))
}

/// Whether no fragment has the name of that number.
fn is_free(alloc: Global, index: &Index, number: usize) -> Result<bool, NoMemory>
    ensures { IfOk result (λ free. (ds : List DefinitionOf) → IsIndexOf ds index.now → IsTrue free ↔ (fragment_definitions ds (extracted_name number) ≡ [])) }
{
    let name = extracted_name(alloc, number)?;
    Ok(index.definitions(name.as_str()).is_empty())
}

/// The least number from 1 whose name no fragment has.
pub(crate) fn free_number(alloc: Global, index: &Index) -> Result<usize, NoMemory>
    requires { ∥ ((ds : List DefinitionOf) × IsIndexOf ds index.now) ∥₁ }
    ensures { IfOk result (λ number. (ds : List DefinitionOf) → IsIndexOf ds index.now → IsLeastFree ds number) }
{
    // of one number more than there are definitions not all are taken
    let numbers = index.places().len() + 1;
    for before in 0..numbers {
        if is_free(alloc, index, before + 1)? {
            return Ok(before + 1);
        }
    }
    unreachable!()
}

/// Whether there is just one spread of the fragment of that name.
pub(crate) fn is_only_spread(index: &Index, name: &str) -> bool
    ensures { (readings : List ParsedOf) → IsIndexOf (executables readings) index.now → result ≡ is_only_spread readings name.now }
{
    index.spreads(name).len() == 1
}
