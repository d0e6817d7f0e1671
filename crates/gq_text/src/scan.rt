//! Positions and offsets, found by going over the characters of a text from its start.
ghost use Rattle.std.specs.Prelude.{◌≡◌, ℕ, ◌+◌, ◌<◌, ◌≤◌, ◌^◌, ◌==◌, ◌&&◌, ◌||◌, not, nat_lt, if◌then◌else◌, length, map, slice_index, All, IfOk};
ghost use Rattle.std.specs.List.Sorted.{IsNonDecreasing};
ghost use Rattle.std.specs.Str.{IsUtf8, IsCharBoundary, continuation_len};
ghost use Rattle.gq_text.specs.Place.{pos, off};
ghost use Rattle.gq_text.specs.declared.place.PositionEncoding.TheVariants.{Utf8, Utf16};

use crate::buffer::NoMemory;
use crate::bytes::Bytes;
use crate::place::{Position, PositionEncoding};
use std::alloc::Global;

/// The offset in bytes of a position in a text. In the middle of a character it means that character's start, past its
/// line's content that content's end, and past the last line the text's end (LSP 3.17, "Position").
pub fn offset_in(encoding: PositionEncoding, text: &str, position: Position) -> usize
    ensures offset { result ≡ off encoding text.now position }
    ensures boundary { IsCharBoundary text.now result }
{
    find_offset(encoding, &text, position)
}

/// The position of an offset in bytes of a text.
pub fn position_in(encoding: PositionEncoding, text: &str, offset: usize) -> Position
    requires fits { length text.now ≤ 2 ^ 30 }
    requires boundary { IsCharBoundary text.now offset }
    ensures { result ≡ pos encoding text.now offset }
{
    find_position(encoding, &text, offset)
}

/// The positions of offsets in bytes of a text that never fall, found in one pass over the text.
pub fn positions_in(
    alloc: Global,
    encoding: PositionEncoding,
    text: &str,
    offsets: &[usize],
) -> Result<Vec<Position>, NoMemory>
    requires fits { length text.now ≤ 2 ^ 30 }
    requires boundaries { All (IsCharBoundary text.now) offsets.now }
    requires ascending { IsNonDecreasing offsets.now }
    ensures { IfOk result (λ positions. positions.items ≡ map (pos encoding text.now) offsets.now) }
{
    find_positions(alloc, encoding, &text, offsets)
}

/// How many bytes the character takes that begins with this byte.
fn width_of(lead: u8) -> usize
    ensures { result ≡ continuation_len lead + 1 }
{
    if lead < 0x80 {
        1
    } else if lead < 0xe0 {
        2
    } else if lead < 0xf0 {
        3
    } else {
        4
    }
}

/// How many code units the character takes that begins with this byte.
fn units_of(encoding: PositionEncoding, lead: u8) -> u32
    ensures utf8 { encoding ≡ Utf8 → result ≡ continuation_len lead + 1 }
    ensures utf16 { encoding ≡ Utf16 → result ≡ (if nat_lt lead 240 then 1 else 2) }
{
    match encoding {
        PositionEncoding::Utf8 => width_of(lead) as u32,
        PositionEncoding::Utf16 => { if lead < 0xf0 { 1 } else { 2 } }
    }
}

/// Whether the byte at `at` is the last of its line.
fn is_last_of_line<B: Bytes>(bytes: &B, at: usize) -> bool
    requires { at < length (B.contents bytes.now) }
    ensures { result ≡ (slice_index (B.contents bytes.now) at == 10 || (slice_index (B.contents bytes.now) at == 13 && not (slice_index (B.contents bytes.now) (at + 1) == 10))) }
{
    let len = bytes.len();
    let byte = bytes.byte(at);
    if byte == b'\n' {
        return true;
    }
    if byte != b'\r' {
        return false;
    }
    let next = at + 1;
    next == len || bytes.byte(next) != b'\n'
}

/// The offset of a position.
pub(crate) fn find_offset<B: Bytes>(
    encoding: PositionEncoding,
    bytes: &B,
    position: Position,
) -> usize
    requires { IsUtf8 (B.contents bytes.now) }
    ensures offset { result ≡ off encoding (B.contents bytes.now) position }
    ensures boundary { IsCharBoundary (B.contents bytes.now) result }
{
    let len = bytes.len();
    let mut at = 0;
    let mut left = position.line;
    'lines: while left > 0 && at < len {
        if is_last_of_line(bytes, at) {
            left -= 1;
        }
        at += width_of(bytes.byte(at));
    }
    if left > 0 {
        return at;
    }
    let mut room = position.character;
    'characters: while at < len {
        let lead = bytes.byte(at);
        let units = units_of(encoding, lead);
        if lead == b'\n' || lead == b'\r' || units > room {
            return at;
        }
        room -= units;
        at += width_of(lead);
    }
    at
}

/// The position of an offset, by the position of an earlier one.
fn position_after<B: Bytes>(
    encoding: PositionEncoding,
    bytes: &B,
    earlier: usize,
    position: Position,
    offset: usize,
) -> Position
    requires utf8 { IsUtf8 (B.contents bytes.now) }
    requires fits { length (B.contents bytes.now) ≤ 2 ^ 30 }
    requires known { position ≡ pos encoding (B.contents bytes.now) earlier }
    requires from { IsCharBoundary (B.contents bytes.now) earlier }
    requires boundary { IsCharBoundary (B.contents bytes.now) offset }
    requires ordered { earlier ≤ offset }
    ensures { result ≡ pos encoding (B.contents bytes.now) offset }
{
    let mut at = earlier;
    let mut line = position.line;
    let mut character = position.character;
    'characters: while at < offset {
        let lead = bytes.byte(at);
        if is_last_of_line(bytes, at) {
            line += 1;
            character = 0;
        } else if lead != b'\r' {
            character += units_of(encoding, lead);
        }
        at += width_of(lead);
    }
    Position { line, character }
}

/// Where a text starts.
const START: Position = Position {
    line: 0,
    character: 0,
};

/// The position of an offset.
pub(crate) fn find_position<B: Bytes>(
    encoding: PositionEncoding,
    bytes: &B,
    offset: usize,
) -> Position
    requires utf8 { IsUtf8 (B.contents bytes.now) }
    requires fits { length (B.contents bytes.now) ≤ 2 ^ 30 }
    requires boundary { IsCharBoundary (B.contents bytes.now) offset }
    ensures { result ≡ pos encoding (B.contents bytes.now) offset }
{
    position_after(encoding, bytes, 0, START, offset)
}

/// The positions of offsets that never fall, each found from the one before.
pub(crate) fn find_positions<B: Bytes>(
    alloc: Global,
    encoding: PositionEncoding,
    bytes: &B,
    offsets: &[usize],
) -> Result<Vec<Position>, NoMemory>
    requires utf8 { IsUtf8 (B.contents bytes.now) }
    requires fits { length (B.contents bytes.now) ≤ 2 ^ 30 }
    requires boundaries { All (IsCharBoundary (B.contents bytes.now)) offsets.now }
    requires ascending { IsNonDecreasing offsets.now }
    ensures { IfOk result (λ positions. positions.items ≡ map (pos encoding (B.contents bytes.now)) offsets.now) }
{
    let mut positions = Vec::with_capacity(alloc, offsets.len())?;
    let mut earlier = 0;
    let mut position = START;
    for offset in offsets {
        position = position_after(encoding, bytes, earlier, position, *offset);
        earlier = *offset;
        positions.push(position)?;
    }
    Ok(positions)
}
