//! Whether a new name may be given.
ghost use Rattle.std.specs.Prelude.{◌≡◌, ℕ, List, None};
ghost use Rattle.std.specs.List.{list_any};
ghost use Rattle.gq_index.specs.Indexed.{IsIndexOf};
ghost use Rattle.gq_index.specs.Occurrences.{DefinitionOf};
ghost use Rattle.gq_renamed.specs.Names.{IsNameText, IsFragmentNameText};
ghost use Rattle.gq_mentions.specs.declared.target.TargetKind.TheVariants as kind;
ghost use Rattle.gq_rename.specs.Asks.{IsGroup};
ghost use Rattle.gq_rename.specs.Helping.Defines.{defines};
ghost use Rattle.gq_rename.specs.Helping.NameRefusals.{IsNameRefusal, first_refusal};

use crate::refusal::Refusal;
use gq_index::Index;
use gq_renamed::{is_fragment_name, is_name};

/// Why a fragment of the old name may not have the new one.
pub(crate) fn fragment_refusal(index: &Index, old_name: &str, new_name: &str) -> Option<Refusal>
    ensures refusal { (ds : List DefinitionOf) (definition : ℕ) → IsIndexOf ds index.now → IsNameRefusal ds kind.Fragment old_name.now definition new_name.now result }
    ensures named { result ≡ None → IsFragmentNameText new_name.now }
{
    first_refusal(
        is_fragment_name(new_name),
        old_name == new_name,
        !index.definitions(new_name).is_empty(),
    )
}

/// Why a variable of the old name may not have the new one in the definitions of its group.
pub(crate) fn variable_refusal(
    index: &Index,
    group: &[usize],
    old_name: &str,
    new_name: &str,
) -> Option<Refusal>
    ensures refusal { (ds : List DefinitionOf) (definition : ℕ) → IsIndexOf ds index.now → IsGroup ds old_name.now definition group.now →
        IsNameRefusal ds kind.Variable old_name.now definition new_name.now result }
    ensures named { result ≡ None → IsNameText new_name.now }
{
    first_refusal(
        is_name(new_name),
        old_name == new_name,
        is_defined_in(index, group, new_name),
    )
}

/// The first refusal of a new name: where it may not be called so, is called so already, or another one is.
fn first_refusal(may_be_called: bool, is_same: bool, is_taken: bool) -> Option<Refusal>
    ensures { result ≡ first_refusal may_be_called is_same is_taken }
{
    if !may_be_called {
        Some(Refusal::BadName)
    } else if is_same {
        Some(Refusal::SameName)
    } else if is_taken {
        Some(Refusal::NameTaken)
    } else {
        None
    }
}

/// Whether one of the definitions of these numbers defines a variable of the name.
fn is_defined_in(index: &Index, group: &[usize], name: &str) -> bool
    ensures { (ds : List DefinitionOf) → IsIndexOf ds index.now → result ≡ list_any (defines ds name.now) group.now }
{
    for number in group {
        if defines(index, *number, name) {
            return true;
        }
    }
    false
}

/// Whether the definition of that number defines a variable of the name.
fn defines(index: &Index, number: usize, name: &str) -> bool
    ensures { (ds : List DefinitionOf) → IsIndexOf ds index.now → result ≡ defines ds name.now number }
{
    !index.variable_definitions(number, name).is_empty()
}
