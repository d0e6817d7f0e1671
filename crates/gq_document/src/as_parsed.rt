//! What a document is read as, by one owner or by several.

use gq_tree::Parsed;
use std::sync::Arc;

/// What holds the reading of a document.
pub trait AsParsed {
    ghost use Rattle.std.specs.Prelude.{◌≡◌};
    ghost use Rattle.gq_tree.specs.declared.parsed.Parsed.{Parsed};

    ghost as_parsed: { Self → Parsed };

    /// The reading.
    fn as_parsed(&self) -> &Parsed
        ensures { result.now ≡ as_parsed self.now };
}

impl AsParsed for Parsed {
    ghost as_parsed = { λ reading. reading };

    fn as_parsed(&self) -> &Parsed {
        self
    }
}

impl AsParsed for Arc<Parsed> {
    ghost use Rattle.std.specs.Arc.{arc_value};

    ghost as_parsed = { λ reading. arc_value reading };

    fn as_parsed(&self) -> &Parsed {
        self
    }
}
