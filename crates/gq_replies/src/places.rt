//! The positions of many places of one text.
ghost use Rattle.std.specs.Prelude.{◌≡◌, ◌≤◌, ◌^◌, length, All, IfOk};
ghost use Rattle.std.specs.Str.{IsCharBoundary};
ghost use Rattle.gq_text.specs.Place.{pos};
ghost use Rattle.gq_replies.specs.Ranges.{range_of};
ghost use Rattle.gq_replies.specs.Helping.Places.{AreOf};

use gq_text::{NoMemory, Position, PositionEncoding, Range, Span, position_in, positions_in};
use std::alloc::Global;

/// Places of a text, ascending, each with its position.
#[derive(Drop)]
pub(crate) struct Places {
    /// In bytes, where characters start or the text ends.
    pub(crate) offsets: Vec<usize>,
    pub(crate) positions: Vec<Position>,
}

impl Places {
    /// The ends of the spans. The text is gone over once.
    pub(crate) fn of(
        alloc: Global,
        encoding: PositionEncoding,
        text: &str,
        spans: &[Span],
    ) -> Result<Places, NoMemory>
        requires { length text.now ≤ 2 ^ 22 }
        ensures { IfOk result (AreOf encoding text.now) }
    {
        let mut offsets = ends(alloc, text, spans)?;
        offsets.sort_unstable();
        let positions = positions_in(alloc, encoding, text, &offsets)?;
        Ok(Places { offsets, positions })
    }

    /// The range of a span, found at once where the span is one of those that this is of.
    pub(crate) fn range(&self, encoding: PositionEncoding, text: &str, span: Span) -> Range
        requires of { AreOf encoding text.now self.now }
        requires fits { length text.now ≤ 2 ^ 22 }
        ensures { result ≡ range_of encoding text.now span }
    {
        Range {
            start: self.position(encoding, text, span.start),
            end: self.position(encoding, text, span.end),
        }
    }

    /// The position of an offset, in bytes.
    fn position(&self, encoding: PositionEncoding, text: &str, offset: usize) -> Position
        requires of { AreOf encoding text.now self.now }
        requires fits { length text.now ≤ 2 ^ 22 }
        ensures { result ≡ pos encoding text.now offset }
    {
        let start = text.floor_char_boundary(offset);
        match self.offsets.binary_search(&start) {
            Ok(index) => self.positions[index],
            Err(_) => position_in(encoding, text, start),
        }
    }
}

/// Both ends of each span: inside a character, its start, and past the text's end, that end.
fn ends(alloc: Global, text: &str, spans: &[Span]) -> Result<Vec<usize>, NoMemory>
    ensures { IfOk result (λ offsets. All (IsCharBoundary text.now) offsets.items) }
{
    let mut offsets = Vec::new(alloc);
    for span in spans {
        offsets.push(text.floor_char_boundary(span.start))?;
        offsets.push(text.floor_char_boundary(span.end))?;
    }
    Ok(offsets)
}
