//! Places in a text: by offsets in bytes of its UTF-8, and by line and character (LSP 3.17, "Text Documents").

/// What the characters of a position are counted in (LSP 3.17, "PositionEncodingKind").
#[derive(Clone, Copy, Debug, PartialEq, Eq)]
pub enum PositionEncoding {
    /// Code units of UTF-8: bytes.
    Utf8,
    /// Code units of UTF-16.
    Utf16,
}

/// The bytes from `start` up to `end`, without the byte at `end`.
#[derive(Clone, Copy, Debug, PartialEq, Eq, PartialOrd, Ord)]
pub struct Span {
    pub start: usize,
    pub end: usize,
}

/// A line, counted from 0, and how many code units of it stand before the place, in the position encoding in use
/// (LSP 3.17, "Position").
#[derive(Clone, Copy, Debug, PartialEq, Eq, PartialOrd, Ord)]
pub struct Position {
    pub line: u32,
    pub character: u32,
}
