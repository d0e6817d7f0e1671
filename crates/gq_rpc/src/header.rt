//! The header part of a frame (LSP 3.17, base protocol), and what stands at the front of a stream.
ghost use Rattle.std.specs.Prelude.{◌≡◌, ℕ, ◌<◌, ◌≤◌, ◌==◌, [], ◌∷◌, codes, bytes_eq, not, All, None, IsTrue, ◌↔◌, true, min, length, drop};
ghost use Rattle.std.specs.List.{position, position_or_len, list_all};
ghost use Rattle.std.specs.Char.{is_ascii_digit};
ghost use Rattle.std.specs.Str.{str_eq_ignore_ascii_case};
ghost use Rattle.std.specs.Str.Parse.{digits_value};
ghost use Rattle.gq_rpc.specs.Lines.{is_line_feed, is_colon, is_no_space, length_cap, length_in, field_in, field_of, known_after, head_of, ended_lines, IsNotEmpty};
ghost use Rattle.gq_rpc.specs.Frames.{scan_of, IsWithin};

use thiserror::Error;

/// Why a stream cannot be read on. It is printed as its name.
#[derive(Clone, Copy, Debug, PartialEq, Eq, Error)]
pub enum FrameFault {
    /// A header part is over 4,096 bytes long, or has a line that is no field, a bad `Content-Length` or a second one.
    #[error("BadHeader")]
    BadHeader,
    /// A header part has no `Content-Length`.
    #[error("NoLength")]
    NoLength,
    /// A body is over 16 MiB long.
    #[error("TooLong")]
    TooLong,
    /// The input ends inside a frame.
    #[error("Truncated")]
    Truncated,
    /// A growth was refused.
    #[error("NoMemory")]
    NoMemory,
    /// An earlier call told a fault.
    #[error("Failed")]
    Failed,
}

/// What a header line says.
#[derive(Clone, Copy, Debug, PartialEq, Eq)]
pub enum Field {
    Other,
    Length(usize),
    Malformed,
}

/// What is known of a header part.
#[derive(Clone, Copy, Debug, PartialEq, Eq)]
pub enum Head {
    /// Its empty line has not come.
    Open,
    /// It has this many bytes, and gives this length.
    Done(usize, Option<usize>),
    Malformed,
}

/// What stands at the front of a text.
#[derive(Clone, Copy, Debug, PartialEq, Eq)]
pub enum Scan {
    /// A frame, whose body begins and ends here.
    Whole(usize, usize),
    Partial,
    Bad(FrameFault),
}

const LENGTH_CAP: usize = 16_777_217;

const MAX_BODY: usize = 16_777_216;

const MAX_HEADER: usize = 4096;

/// The number that digits give, at most `LENGTH_CAP`.
fn capped_value(digits: &[u8]) -> usize
    requires { All (λ b. is_ascii_digit b ≡ true) digits.now }
    ensures { result ≡ min (digits_value 10 digits.now) length_cap }
{
    let mut value: usize = 0;
    for b in digits {
        value = (value * 10 + (*b - b'0') as usize).min(LENGTH_CAP);
    }
    value
}

/// Where the first byte stands that is no digit.
fn find_digit_end(text: &[u8]) -> Option<usize>
    ensures { result ≡ position (λ b. not (is_ascii_digit b)) text.now }
{
    text.iter().position(|b| !b.is_ascii_digit())
}

/// How many digits stand in front.
fn digit_count(text: &[u8]) -> usize
    ensures count { result ≡ position_or_len (λ b. not (is_ascii_digit b)) text.now }
    ensures within { result ≤ length text.now }
{
    find_digit_end(text).unwrap_or(text.len())
}

/// Where the first byte stands that is no space.
fn find_no_space(text: &[u8]) -> Option<usize>
    ensures { result ≡ position is_no_space text.now }
{
    text.iter().position(|b| *b != b' ')
}

/// How many spaces stand in front.
fn space_count(text: &[u8]) -> usize
    ensures count { result ≡ position_or_len is_no_space text.now }
    ensures within { result ≤ length text.now }
{
    find_no_space(text).unwrap_or(text.len())
}

/// Where the first colon stands.
fn find_colon(text: &[u8]) -> Option<usize>
    ensures { result ≡ position is_colon text.now }
{
    text.iter().position(|b| *b == b':')
}

/// How many bytes stand before the first colon.
fn name_len(text: &[u8]) -> usize
    ensures count { result ≡ position_or_len is_colon text.now }
    ensures within { result ≤ length text.now }
{
    find_colon(text).unwrap_or(text.len())
}

/// Where the first LF stands.
fn find_line_feed(text: &[u8]) -> Option<usize>
    ensures { result ≡ position is_line_feed text.now }
{
    text.iter().position(|b| *b == b'\n')
}

/// How many bytes stand before the first LF.
fn line_len(text: &[u8]) -> usize
    ensures count { result ≡ position_or_len is_line_feed text.now }
    ensures within { result ≤ length text.now }
{
    find_line_feed(text).unwrap_or(text.len())
}

fn all_spaces(text: &[u8]) -> bool
    ensures { result ≡ list_all (λ b. b == 32) text.now }
{
    text.iter().all(|b| *b == b' ')
}

/// The length that the value of a field gives.
fn read_length(value: &[u8]) -> Option<usize>
    ensures { result ≡ length_in value.now }
{
    let digits = &value[space_count(value)..];
    let count = digit_count(digits);
    if count > 0 && all_spaces(&digits[count..]) {
        Some(capped_value(&digits[..count]))
    } else {
        None
    }
}

/// Whether this is the name of the field that gives the length.
fn is_length_name(name: &[u8]) -> bool
    ensures { result ≡ str_eq_ignore_ascii_case name.now (codes "Content-Length") }
{
    name.eq_ignore_ascii_case(b"Content-Length")
}

/// What a line without its end says.
fn read_field(line: &[u8]) -> Field
    ensures { result ≡ field_in line.now }
{
    let colon = name_len(line);
    if colon < line.len() {
        if is_length_name(&line[..colon]) {
            match read_length(&line[colon + 1..]) {
                Some(n) => Field::Length(n),
                None => Field::Malformed,
            }
        } else {
            Field::Other
        }
    } else {
        Field::Malformed
    }
}

/// What a line that a LF ended says.
fn read_line(line: &[u8]) -> Field
    ensures { result ≡ field_of line.now }
{
    let len = line.len();
    if len > 0 && line[len - 1] == b'\r' {
        read_field(&line[..len - 1])
    } else {
        Field::Malformed
    }
}

/// Whether the line is the empty one, but for its CR.
fn is_last_line(line: &[u8]) -> bool
    ensures { result ≡ bytes_eq line.now (13 ∷ []) }
{
    line == b"\r".as_slice()
}

/// The length that is known after a line, unless the line is no field or gives the length again.
fn note_line(line: &[u8], found: Option<usize>) -> Option<Option<usize>>
    ensures { result ≡ known_after (field_of line.now) found }
{
    match read_line(line) {
        Field::Other => Some(found),
        Field::Length(n) => match found {
            None => Some(Some(n)),
            Some(_) => None,
        },
        Field::Malformed => None,
    }
}

/// The text without its first bytes.
pub(crate) fn skip(text: &[u8], count: usize) -> &[u8]
    requires { count ≤ length text.now }
    ensures { result.now ≡ drop count text.now }
{
    &text[count..]
}

/// Reads the header part at the front of a text.
fn read_head(text: &[u8]) -> Head
    ensures head { result ≡ head_of 0 None (ended_lines text.now) }
    ensures last_line { IsNotEmpty result }
{
    let mut rest = text;
    let mut size = 0;
    let mut found = None;
    'lines: loop {
        let len = line_len(rest);
        if len == rest.len() {
            return Head::Open;
        }
        let line = &rest[..len];
        if is_last_line(line) {
            return Head::Done(size + 2, found);
        }
        let Some(known) = note_line(line, found) else {
            return Head::Malformed;
        };
        found = known;
        rest = skip(rest, len + 1);
        size += len + 1;
    }
}

/// What stands at the front of a text.
pub fn scan_front(text: &[u8]) -> Scan
    ensures scan { result ≡ scan_of text.now }
    ensures within { IsWithin result (length text.now) }
{
    match read_head(text) {
        Head::Malformed => Scan::Bad(FrameFault::BadHeader),
        Head::Open => {
            if text.len() > MAX_HEADER {
                Scan::Bad(FrameFault::BadHeader)
            } else {
                Scan::Partial
            }
        }
        Head::Done(size, found) => {
            if size > MAX_HEADER {
                return Scan::Bad(FrameFault::BadHeader);
            }
            let Some(n) = found else {
                return Scan::Bad(FrameFault::NoLength);
            };
            if n > MAX_BODY {
                Scan::Bad(FrameFault::TooLong)
            } else if size + n <= text.len() {
                Scan::Whole(size, size + n)
            } else {
                Scan::Partial
            }
        }
    }
}
