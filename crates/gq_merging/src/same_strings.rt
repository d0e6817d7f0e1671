//! Identical strings: those of one spelling or of one value (section 2.9.4, "String Value").
ghost use Rattle.std.specs.Prelude.{◌↔◌, IsTrue, IfOk, IfSome, IfNone};
ghost use Rattle.gq_types.specs.Entries.{Text};
ghost use Rattle.gq_merging.specs.SameArguments.{StandsFor, AreSameStrings};

use gq_lex::{block_string_value, string_value};
use gq_text::{NoMemory, OwnedText};
use std::alloc::Global;

/// What the spelling of a string or block string stands for; `None` where the text spells neither.
fn value_of(alloc: Global, spelling: &str) -> Result<Option<OwnedText>, NoMemory>
    ensures some { IfOk result (λ found. IfSome found (λ value. StandsFor spelling.now value)) }
    ensures none { IfOk result (λ found. IfNone found ((value : Text) → StandsFor spelling.now value → ⊥)) }
{
    let plain = string_value(alloc, spelling)?;
    if plain.is_some() {
        return Ok(plain);
    }
    let block = block_string_value(alloc, spelling)?;
    Ok(block)
}

/// Whether the strings are identical. Two of one spelling are, and no value is made then.
pub(crate) fn are_same_strings(alloc: Global, left: &str, right: &str) -> Result<bool, NoMemory>
    ensures { IfOk result (λ same. IsTrue same ↔ AreSameStrings left.now right.now) }
{
    if left == right {
        return Ok(true);
    }
    let Some(left_value) = value_of(alloc, left)? else {
        return Ok(false);
    };
    let Some(right_value) = value_of(alloc, right)? else {
        return Ok(false);
    };
    Ok(left_value.as_str() == right_value.as_str())
}
