//! Spans of bytes as ranges by positions (LSP 3.17, "Range").
ghost use Rattle.std.specs.Prelude.{◌≡◌, ◌≤◌, ◌^◌, length};
ghost use Rattle.gq_text.specs.Place.{pos};
ghost use Rattle.gq_replies.specs.Ranges.{range_of};

use gq_text::{Position, PositionEncoding, Range, Span, position_in};

/// The position of an offset, in bytes. Inside a character it is that of the character's start, and past the text's end
/// that of the end.
fn position_at(encoding: PositionEncoding, text: &str, offset: usize) -> Position
    requires { length text.now ≤ 2 ^ 22 }
    ensures { result ≡ pos encoding text.now offset }
{
    position_in(encoding, text, text.floor_char_boundary(offset))
}

/// The range of a span.
pub(crate) fn range_in(encoding: PositionEncoding, text: &str, span: Span) -> Range
    requires { length text.now ≤ 2 ^ 22 }
    ensures { result ≡ range_of encoding text.now span }
{
    Range {
        start: position_at(encoding, text, span.start),
        end: position_at(encoding, text, span.end),
    }
}
