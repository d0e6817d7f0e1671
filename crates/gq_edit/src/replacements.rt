//! Replacements in one text.
ghost use Rattle.std.specs.Prelude.{◌≡◌, ◌≤◌, ◌^◌, ◌↔◌, IfOk, IsTrue, length};
ghost use Rattle.gq_text.specs.Replaced.{replaced};
ghost use Rattle.gq_edit.specs.Replacements.{AreDisjoint, FitText};

use gq_text::text::TEXT_MAX;
use gq_text::{NoMemory, OwnedText, Replacement};
use std::alloc::Global;
use std::marker::Model;

/// Replacements in one text, whose spans are in order and do not overlap.
#[derive(Debug, Drop)]
pub struct Replacements {
    items: Vec<Replacement>,
}

impl Model for Replacements {
    ghost use Rattle.std.specs.Prelude.{List};
    ghost use Rattle.gq_text.specs.declared.replacement.Replacement.{Replacement};
    ghost use Rattle.gq_edit.specs.Replacements.{AreDisjoint};

    ghost Value = { List Replacement };

    ghost view = { λ r. r.items.items };

    ghost invariant = { λ r. AreDisjoint r.items.items };
}

impl Replacements {
    /// These replacements. It takes no memory.
    pub fn from_vec(items: Vec<Replacement>) -> Replacements
        requires { AreDisjoint items.items }
        ensures { result ≡ items.items }
    {
        Replacements { items }
    }

    /// The replacements, in the order of their spans.
    pub fn as_slice(&self) -> &[Replacement]
        ensures all { result.now ≡ self.now }
        ensures disjoint { AreDisjoint self.now }
    {
        self.items.as_slice()
    }
}

/// The text with the replacements made.
pub fn replaced_text(
    alloc: Global,
    text: &str,
    replacements: &[Replacement],
) -> Result<OwnedText, NoMemory>
    requires disjoint { AreDisjoint replacements.now }
    requires fit { FitText text.now replacements.now }
    ensures { IfOk result (λ made. made ≡ replaced replacements.now text.now) }
{
    let mut made = String::new(alloc);
    let mut at = 0;
    for replacement in replacements {
        made.push_str(&text[at..replacement.span.start])?;
        made.push_str(replacement.text.as_str())?;
        at = replacement.span.end;
    }
    made.push_str(&text[at..])?;
    Ok(OwnedText::from_string(made))
}

/// Whether the text with the replacements made has at most 4 MiB. It takes no memory.
pub fn replaced_fits(text: &str, replacements: &[Replacement]) -> bool
    requires disjoint { AreDisjoint replacements.now }
    requires fit { FitText text.now replacements.now }
    ensures { IsTrue result ↔ (length (replaced replacements.now text.now) ≤ 2 ^ 22) }
{
    let mut len = 0usize;
    let mut at = 0;
    for replacement in replacements {
        let kept = replacement.span.start - at;
        len = len
            .saturating_add(kept)
            .saturating_add(replacement.text.as_str().len());
        if len > TEXT_MAX {
            return false;
        }
        at = replacement.span.end;
    }
    len.saturating_add(text.len() - at) <= TEXT_MAX
}
