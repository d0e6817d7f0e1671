//! Texts that a value owns, of which the short ones stand in the value itself.
ghost use Rattle.std.specs.Prelude.{◌≡◌, ◌≤◌, length, IfOk, IsOk};
ghost use Rattle.gq_text.specs.Small.{kept_bytes};

use crate::buffer::NoMemory;
use arrayvec::ArrayString;
use indexmap::Equivalent;
use std::alloc::Global;
use std::fmt;
use std::hash::{Hash, Hasher};
use std::marker::Model;

/// Where the bytes of a text are kept. Most names have at most 16 of them.
#[derive(Drop)]
enum Kept {
    Here(ArrayString<16>),
    Apart(String),
}

/// A text that a value owns, seen as its UTF-8 bytes. One of at most 16 bytes takes no memory beside the value.
#[derive(Drop)]
pub struct SmallText {
    kept: Kept,
}

impl Model for SmallText {
    ghost use Rattle.std.specs.Prelude.{List, ℕ};
    ghost use Rattle.gq_text.specs.Small.{kept_bytes};

    ghost Value = { List ℕ };

    ghost view = { λ t. kept_bytes t.kept };
}

impl SmallText {
    /// A copy of the text.
    pub fn from_str(alloc: Global, text: &str) -> Result<SmallText, NoMemory>
        ensures text { IfOk result (λ t. t ≡ text.now) }
        ensures short { length text.now ≤ 16 → IsOk result }
    {
        let kept = match ArrayString::from(text) {
            Ok(here) => Kept::Here(here),
            Err(_) => Kept::Apart(String::from_str(alloc, text)?),
        };
        Ok(SmallText { kept })
    }

    /// The text, lent.
    pub fn as_str(&self) -> &str
        ensures { result.now ≡ self.now }
    {
        match &self.kept {
            Kept::Here(here) => here.as_str(),
            Kept::Apart(text) => text.as_str(),
        }
    }

    /// Another text with the same bytes.
    pub fn copied(&self, alloc: Global) -> Result<SmallText, NoMemory>
        ensures text { IfOk result (λ t. t ≡ self.now) }
        ensures short { length self.now ≤ 16 → IsOk result }
    {
        SmallText::from_str(alloc, self.as_str())
    }
}

/// Two texts are equal where they have the same bytes.
impl PartialEq for SmallText {
    ghost use Rattle.std.specs.Str.{bytes_eq};
    ghost use Rattle.std.specs.Cmp.{partial_equiv_from_equiv};
    ghost use Rattle.std.specs.Cmp.Lexicographic.{nat_list_eq_equiv};

    ghost eq = { bytes_eq };

    ghost laws = { partial_equiv_from_equiv nat_list_eq_equiv };

    fn eq(&self, other: &SmallText) -> bool {
        self.as_str() == other.as_str()
    }
}

impl Eq for SmallText {
    ghost use Rattle.std.specs.Cmp.Lexicographic.{nat_list_eq_equiv};

    ghost laws = { nat_list_eq_equiv };
}

impl Hash for SmallText {
    ghost use Rattle.std.specs.Cmp.Rules.{hashing};
    ghost use Rattle.std.specs.Hash as fed;
    ghost use Rattle.std.proofs.Common.{rules};

    ghost hash_input = { λ t. fed.str t };

    ghost respects_eq = { Prim.search (hashing, rules) };

    fn hash<H: Hasher>(&self, state: &mut H) {
        self.as_str().hash(state);
    }
}

/// A text of a map is found by any text of the same bytes.
impl Equivalent<SmallText> for &str {
    ghost use Rattle.std.proofs.Common.{ap};
    ghost use Rattle.std.specs.Cmp.Lexicographic.{bytes_decides, nat_list_eq_equiv};
    ghost use Rattle.std.specs.Hash as fed;
    ghost use Rattle.std.specs.Str.{bytes_eq};

    ghost equivalent = { λ q k. bytes_eq q.now k };

    ghost respects_hash = { λ q k h. ap fed.str ((bytes_decides q.now k).0 h) };

    ghost respects_eq = { λ q x y. nat_list_eq_equiv.congr q.now x y };

    fn equivalent(&self, key: &SmallText) -> bool {
        *self == key.as_str()
    }
}

impl fmt::Debug for SmallText {
    fn fmt<W: fmt::Write>(&self, f: &mut fmt::Formatter<W>) -> fmt::Result {
        fmt::Debug::fmt(&self.as_str(), f)
    }
}
