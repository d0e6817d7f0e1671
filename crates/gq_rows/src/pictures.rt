//! Pictures in the texts of rows: what cannot be seen, or would be long.
use crate::no_answer::NoAnswer;
use std::alloc::Global;
use std::io::Write;

/// The picture of the byte 0xff, which no text has.
const NO_TEXT: char = '▯';

/// The bytes that a text of a row stands for.
///
/// `␊` is a line feed, and so on for each character from U+0000 to U+0020, `␡` is U+007F and `▯` is the byte 0xff.
/// `⟨U+FEFF⟩` is a character by its number. `⟨9*TEXT⟩` is a text nine times, in which `‹0›` stands for 0 at first, and
/// for one more each time.
pub fn bytes_of(alloc: Global, text: &str) -> Result<Vec<u8>, NoAnswer> {
    let mut bytes = Vec::new(alloc);
    let mut pieces = text.split('⟨');
    if let Some(first) = pieces.next() {
        put_plain(&mut bytes, first)?;
    }
    for piece in pieces {
        let (inside, rest) = piece.split_once('⟩').ok_or(NoAnswer)?;
        put_inside(alloc, &mut bytes, inside)?;
        put_plain(&mut bytes, rest)?;
    }
    Ok(bytes)
}

/// The text that a text of a row stands for.
pub fn text_of(alloc: Global, text: &str) -> Result<String, NoAnswer> {
    Ok(String::from_utf8(bytes_of(alloc, text)?)?)
}

/// The character that a picture stands for.
fn plain(picture: char) -> char {
    match picture {
        '␀'..='␠' => char::from_u32((picture as u32).wrapping_sub(0x2400)).unwrap_or(picture),
        '␡' => '\u{7f}',
        _ => picture,
    }
}

fn put_plain(bytes: &mut Vec<u8>, text: &str) -> Result<(), NoAnswer> {
    let mut room = [0u8; 4];
    for picture in text.chars() {
        if picture == NO_TEXT {
            bytes.push(0xff)?;
        } else {
            let one = plain(picture).encode_utf8(&mut room);
            bytes.extend_from_slice(one.as_bytes())?;
        }
    }
    Ok(())
}

/// Puts what `⟨` and `⟩` enclose.
fn put_inside(alloc: Global, bytes: &mut Vec<u8>, inside: &str) -> Result<(), NoAnswer> {
    match inside.split_once('*') {
        Some((count, text)) => put_times(alloc, bytes, count.parse()?, text),
        None => put_character(bytes, inside),
    }
}

/// Puts the character of a number such as `U+FEFF`.
fn put_character(bytes: &mut Vec<u8>, number: &str) -> Result<(), NoAnswer> {
    let digits = number.strip_prefix("U+").ok_or(NoAnswer)?;
    let code = u32::from_str_radix(digits, 16)?;
    let one = char::from_u32(code).ok_or(NoAnswer)?;
    let mut room = [0u8; 4];
    bytes.extend_from_slice(one.encode_utf8(&mut room).as_bytes())?;
    Ok(())
}

fn put_times(alloc: Global, bytes: &mut Vec<u8>, count: usize, text: &str) -> Result<(), NoAnswer> {
    if text.contains('‹') {
        for turn in 0..count {
            put_turn(bytes, text, turn)?;
        }
        return Ok(());
    }
    let mut once = Vec::new(alloc);
    put_plain(&mut once, text)?;
    bytes.extend_from_slice(once.as_slice().repeat(alloc, count)?.as_slice())?;
    Ok(())
}

/// Puts a text as it stands at that turn, counted from 0.
fn put_turn(bytes: &mut Vec<u8>, text: &str, turn: usize) -> Result<(), NoAnswer> {
    let mut pieces = text.split('‹');
    if let Some(first) = pieces.next() {
        put_plain(bytes, first)?;
    }
    for piece in pieces {
        let (number, rest) = piece.split_once('›').ok_or(NoAnswer)?;
        put_number(bytes, number.parse::<usize>()?.saturating_add(turn))?;
        put_plain(bytes, rest)?;
    }
    Ok(())
}

/// Puts a number's decimal digits.
fn put_number(bytes: &mut Vec<u8>, number: usize) -> Result<(), NoAnswer> {
    write!(bytes, "{number}")?;
    Ok(())
}
