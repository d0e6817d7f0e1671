//! Positions in a text, and its changes, in each kind of buffer.
use crate::no_answer::NoAnswer;
use crate::row::Row;
use crate::telling::Telling;
use gq_gap::GapBuffer;
use gq_text::{Buffer, Change, OwnedText, Position, PositionEncoding, Range, Text, VecBuffer};
use std::alloc::Global;

/// The position that a word such as `1:5` says.
fn position(word: &str) -> Result<Position, NoAnswer> {
    let (line, character) = word.split_once(':').ok_or(NoAnswer)?;
    Ok(Position {
        line: line.parse()?,
        character: character.parse()?,
    })
}

/// What characters are counted in where the given text has that name.
fn encoding_of(name: &str) -> PositionEncoding {
    if name == "utf-8" {
        PositionEncoding::Utf8
    } else {
        PositionEncoding::Utf16
    }
}

/// The offset of a position in a text that is kept in a buffer of that kind, and the position of that offset.
fn place_in<B: Buffer>(
    alloc: Global,
    encoding: PositionEncoding,
    text: &str,
    asked: Position,
) -> Result<(usize, Position), NoAnswer> {
    let text = Text::<B>::from_str(alloc, text)?;
    let offset = text.offset_of(encoding, asked);
    Ok((offset, text.position_of(encoding, offset)))
}

/// Tells an offset and a position.
fn put_place((offset, position): (usize, Position), telling: &mut Telling) {
    telling.put_number(offset);
    telling.put(" ");
    telling.put_number(position.line as usize);
    telling.put(":");
    telling.put_number(position.character as usize);
}

/// Tells the offset of a position in the given text, and the position of that offset: twice where the kinds of buffers tell
/// them apart.
pub fn tell_place(alloc: Global, row: &Row<'_>, telling: &mut Telling) -> Result<(), NoAnswer> {
    let asked = row.asked(alloc)?;
    let given = row.given.first().ok_or(NoAnswer)?;
    let encoding = encoding_of(given.key);
    let text = given.text(alloc)?;
    let asked = position(asked.as_str())?;
    let place = place_in::<VecBuffer>(alloc, encoding, text.as_str(), asked)?;
    let other = place_in::<GapBuffer>(alloc, encoding, text.as_str(), asked)?;
    put_place(place, telling);
    if other != place {
        telling.put(" or ");
        put_place(other, telling);
    }
    Ok(())
}

/// The change that a word says: `0:2-0:4=X` puts `X` into that range, and a word without `=` is the whole text.
fn change(alloc: Global, word: &str) -> Result<Change, NoAnswer> {
    let Some((range, text)) = word.split_once('=') else {
        return Ok(Change::Whole(OwnedText::from_str(alloc, word)?));
    };
    let (start, end) = range.split_once('-').ok_or(NoAnswer)?;
    let range = Range {
        start: position(start)?,
        end: position(end)?,
    };
    Ok(Change::Part(range, OwnedText::from_str(alloc, text)?))
}

fn changes(alloc: Global, words: &str) -> Result<Vec<Change>, NoAnswer> {
    let mut changes = Vec::new(alloc);
    for word in words.split_whitespace() {
        changes.push(change(alloc, word)?)?;
    }
    Ok(changes)
}

/// A text behind its changes, kept in a buffer of that kind.
fn changed_in<B: Buffer>(
    alloc: Global,
    before: &str,
    changes: &[Change],
) -> Result<String, NoAnswer> {
    let mut text = Text::<B>::from_str(alloc, before)?;
    text.apply_changes(alloc, PositionEncoding::Utf16, changes)?;
    Ok(text.to_string(alloc)?)
}

/// Tells a text behind its changes, asked as `TEXT | CHANGE CHANGE`: twice where the kinds of buffers tell them apart.
pub fn tell_changed(alloc: Global, row: &Row<'_>, telling: &mut Telling) -> Result<(), NoAnswer> {
    let asked = row.asked(alloc)?;
    let (before, words) = asked.as_str().split_once('|').ok_or(NoAnswer)?;
    let changes = changes(alloc, words)?;
    let changed = changed_in::<VecBuffer>(alloc, before.trim(), &changes)?;
    let other = changed_in::<GapBuffer>(alloc, before.trim(), &changes)?;
    telling.put(changed.as_str());
    if other != changed {
        telling.put(" or ");
        telling.put(other.as_str());
    }
    Ok(())
}
