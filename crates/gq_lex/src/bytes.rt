//! The classes of the bytes of a text, and how far they go.

ghost use Rattle.std.specs.Prelude.{◌≡◌, ◌≤◌, length, get_or, drop};
ghost use Rattle.std.specs.List.{prefix_len};
ghost use Rattle.gq_lex.specs.Bytes.{is_white_space, is_line_terminator, is_name_start, is_name_continue, is_comment_byte, is_digit};
ghost use Rattle.gq_lex.specs.Decoding.{is_line_byte};
ghost use Rattle.gq_lex.specs.Helping.Reading.{is_blank, is_number_start};

pub(crate) fn is_white_space(b: u8) -> bool
    ensures { result ≡ is_white_space b }
{
    b == b'\t' || b == b' '
}

pub(crate) fn is_line_terminator(b: u8) -> bool
    ensures { result ≡ is_line_terminator b }
{
    b == b'\n' || b == b'\r'
}

pub(crate) fn is_blank(b: u8) -> bool
    ensures { result ≡ is_blank b }
{
    is_white_space(b) || is_line_terminator(b) || b == b','
}

pub(crate) fn is_name_start(b: u8) -> bool
    ensures { result ≡ is_name_start b }
{
    b == b'_' || b.is_ascii_alphabetic()
}

pub(crate) fn is_name_continue(b: u8) -> bool
    ensures { result ≡ is_name_continue b }
{
    b == b'_' || b.is_ascii_alphanumeric()
}

pub(crate) fn is_comment_byte(b: u8) -> bool
    ensures { result ≡ is_comment_byte b }
{
    b >= b' ' || b == b'\t'
}

pub(crate) fn is_number_start(b: u8) -> bool
    ensures { result ≡ is_number_start b }
{
    b == b'-' || is_digit(b)
}

pub(crate) fn is_digit(b: u8) -> bool
    ensures { result ≡ is_digit b }
{
    b.is_ascii_digit()
}

// How many bytes of a name stand at the front.
pub(crate) fn name_len(bytes: &[u8]) -> usize
    ensures count { result ≡ prefix_len is_name_continue bytes.now }
    ensures within { result ≤ length bytes.now }
{
    for (i, b) in bytes.iter().enumerate() {
        if !is_name_continue(*b) {
            return i;
        }
    }
    bytes.len()
}

// How many bytes of a comment stand at the front.
pub(crate) fn comment_len(bytes: &[u8]) -> usize
    ensures count { result ≡ prefix_len is_comment_byte bytes.now }
    ensures within { result ≤ length bytes.now }
{
    for (i, b) in bytes.iter().enumerate() {
        if !is_comment_byte(*b) {
            return i;
        }
    }
    bytes.len()
}

// How many digits stand at the front.
pub(crate) fn digits_len(bytes: &[u8]) -> usize
    ensures count { result ≡ prefix_len is_digit bytes.now }
    ensures within { result ≤ length bytes.now }
{
    for (i, b) in bytes.iter().enumerate() {
        if !is_digit(*b) {
            return i;
        }
    }
    bytes.len()
}

// How many bytes of WhiteSpace stand at the front.
pub(crate) fn white_space_len(bytes: &[u8]) -> usize
    ensures count { result ≡ prefix_len is_white_space bytes.now }
    ensures within { result ≤ length bytes.now }
{
    for (i, b) in bytes.iter().enumerate() {
        if !is_white_space(*b) {
            return i;
        }
    }
    bytes.len()
}

// How many bytes stand before the first LineTerminator.
pub(crate) fn line_len(bytes: &[u8]) -> usize
    ensures count { result ≡ prefix_len is_line_byte bytes.now }
    ensures within { result ≤ length bytes.now }
{
    for (i, b) in bytes.iter().enumerate() {
        if !is_line_byte(*b) {
            return i;
        }
    }
    bytes.len()
}

fn is_line_byte(b: u8) -> bool
    ensures { result ≡ is_line_byte b }
{
    !is_line_terminator(b)
}

// The byte at a place, or 0.
pub(crate) fn byte_at(bytes: &[u8], at: usize) -> u8
    ensures { result ≡ get_or bytes.now at 0 }
{
    if at < bytes.len() { bytes[at] } else { 0 }
}

// What follows so many bytes.
pub(crate) fn behind(bytes: &[u8], at: usize) -> &[u8]
    ensures { result.now ≡ drop at bytes.now }
{
    if at < bytes.len() { &bytes[at..] } else { &[] }
}
