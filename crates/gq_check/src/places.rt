//! The positions of many places of one text.
ghost use Rattle.std.specs.Prelude.{◌≡◌, ◌≤◌, ◌^◌, length, map, All, IfOk};
ghost use Rattle.std.specs.Str.{IsCharBoundary};
ghost use Rattle.gq_text.specs.Place.{pos};
ghost use Rattle.gq_text.specs.declared.place.PositionEncoding.TheVariants.{Utf8, Utf16};
ghost use Rattle.gq_check.specs.Formats.{range_in};
ghost use Rattle.gq_check.specs.Helping.Places.{AreOf};

use gq_fault::Found;
use gq_text::{NoMemory, Position, PositionEncoding, Range, Span, position_in, positions_in};
use std::alloc::Global;

/// Places of a text, ascending, each with its positions.
#[derive(Drop)]
pub(crate) struct Places {
    /// In bytes, where characters start or the text ends.
    offsets: Vec<usize>,
    /// The positions by UTF-16 code units, and by bytes.
    in_units: Vec<Position>,
    in_bytes: Vec<Position>,
}

impl Places {
    /// The ends of the faults. The text is gone over twice.
    pub(crate) fn of(alloc: Global, text: &str, found: &[Found]) -> Result<Places, NoMemory>
        requires { length text.now ≤ 2 ^ 22 }
        ensures { IfOk result (AreOf text.now) }
    {
        let mut offsets = ends(alloc, text, found)?;
        offsets.sort_unstable();
        let in_units = positions_in(alloc, PositionEncoding::Utf16, text, &offsets)?;
        let in_bytes = positions_in(alloc, PositionEncoding::Utf8, text, &offsets)?;
        Ok(Places {
            offsets,
            in_units,
            in_bytes,
        })
    }

    /// The range of a span by UTF-16 code units, found at once where it is that of a fault that this is of.
    pub(crate) fn in_units(&self, text: &str, span: Span) -> Range
        requires of { AreOf text.now self.now }
        requires fits { length text.now ≤ 2 ^ 22 }
        ensures { result ≡ range_in Utf16 text.now span }
    {
        let encoding = PositionEncoding::Utf16;
        range_of(encoding, text, &self.offsets, &self.in_units, span)
    }

    /// The same by bytes.
    pub(crate) fn in_bytes(&self, text: &str, span: Span) -> Range
        requires of { AreOf text.now self.now }
        requires fits { length text.now ≤ 2 ^ 22 }
        ensures { result ≡ range_in Utf8 text.now span }
    {
        let encoding = PositionEncoding::Utf8;
        range_of(encoding, text, &self.offsets, &self.in_bytes, span)
    }
}

/// The range of a span, by the positions of offsets.
fn range_of(
    encoding: PositionEncoding,
    text: &str,
    offsets: &[usize],
    positions: &[Position],
    span: Span,
) -> Range
    requires of { positions.now ≡ map (pos encoding text.now) offsets.now }
    requires fits { length text.now ≤ 2 ^ 22 }
    ensures { result ≡ range_in encoding text.now span }
{
    Range {
        start: position_of(encoding, text, offsets, positions, span.start),
        end: position_of(encoding, text, offsets, positions, span.end),
    }
}

/// The position of an offset, in bytes.
fn position_of(
    encoding: PositionEncoding,
    text: &str,
    offsets: &[usize],
    positions: &[Position],
    offset: usize,
) -> Position
    requires of { positions.now ≡ map (pos encoding text.now) offsets.now }
    requires fits { length text.now ≤ 2 ^ 22 }
    ensures { result ≡ pos encoding text.now offset }
{
    let start = text.floor_char_boundary(offset);
    match offsets.binary_search(&start) {
        Ok(index) => positions[index],
        Err(_) => position_in(encoding, text, start),
    }
}

/// Both ends of each fault: inside a character, its start, and past the text's end, that end.
fn ends(alloc: Global, text: &str, found: &[Found]) -> Result<Vec<usize>, NoMemory>
    ensures { IfOk result (λ offsets. All (IsCharBoundary text.now) offsets.items) }
{
    let mut offsets = Vec::new(alloc);
    for item in found {
        offsets.push(text.floor_char_boundary(item.span.start))?;
        offsets.push(text.floor_char_boundary(item.span.end))?;
    }
    Ok(offsets)
}
