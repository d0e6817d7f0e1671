//! Edits of a gap buffer: what is put in is found again, and the block grows as it is told to.
use gq_gap::GapBuffer;
use gq_text::{
    Buffer, Change, OwnedText, Position, PositionEncoding, Range, Span, Text, TextError,
};
use std::test::Fail;

/// Whether the buffer has that capacity, and its two halves joined are these bytes.
fn holds(buffer: &GapBuffer, bytes: &[u8], capacity: usize) -> bool {
    let (front, back) = buffer.halves();
    let cut = front.len();
    cut <= bytes.len()
        && front == &bytes[..cut]
        && back == &bytes[cut..]
        && buffer.capacity() == capacity
}

#[test]
fn a_gap_moves_and_its_block_doubles(rt: HostRuntime) -> Result<(), Fail> {
    let mut buffer = GapBuffer::with_capacity(rt.alloc(), 4)?;
    buffer.insert(0, b"abcd")?;
    assert!(rt; holds(&buffer, b"abcd", 4));
    buffer.insert(2, b"XY")?;
    assert!(rt; holds(&buffer, b"abXYcd", 8));
    buffer.remove(1, 3);
    assert!(rt; holds(&buffer, b"acd", 8));
    buffer.insert(3, b"e")?;
    assert!(rt; holds(&buffer, b"acde", 8));
    let part = buffer.copy_out(rt.alloc(), 1, 3)?;
    assert_eq!(rt; part.as_slice(), b"cd".as_slice());
    Ok(())
}

#[test]
fn a_buffer_with_no_room_takes_a_block_with_its_first_byte(rt: HostRuntime) -> Result<(), Fail> {
    let mut buffer = GapBuffer::with_capacity(rt.alloc(), 0)?;
    buffer.insert(0, b"")?;
    assert!(rt; holds(&buffer, b"", 0));
    buffer.insert(0, b"abc")?;
    assert!(rt; holds(&buffer, b"abc", 3));
    buffer.insert(1, b"d")?;
    assert!(rt; holds(&buffer, b"adbc", 6));
    Ok(())
}

#[test]
fn a_text_in_a_gap_buffer_is_edited(rt: HostRuntime) -> Result<(), Fail> {
    let alloc = rt.alloc();
    let mut text = Text::<GapBuffer>::from_str(alloc, "{ a }")?;
    text.splice(Span { start: 2, end: 3 }, "user")?;
    assert_eq!(rt; text.to_string(alloc)?.as_str(), "{ user }");
    Ok(())
}

/// A change that puts the text in front of the first character.
fn put_first(text: OwnedText) -> Change {
    let start = Position {
        line: 0,
        character: 0,
    };
    Change::Part(Range { start, end: start }, text)
}

#[test]
fn a_change_keeps_the_capacity(rt: HostRuntime) -> Result<(), Fail> {
    let alloc = rt.alloc();
    let mut text = Text::<GapBuffer>::from_str(alloc, "{ a }")?;
    text.splice(Span { start: 2, end: 3 }, "user")?;
    assert!(rt; text.buffer().has_bytes(b"{ user }") && text.buffer().capacity() == 10);
    let changes = [
        put_first(OwnedText::from_str(alloc, "#")?),
        put_first(OwnedText::from_str(alloc, "#")?),
    ];
    text.apply_changes(alloc, PositionEncoding::Utf16, &changes)?;
    assert!(rt; holds(text.buffer(), b"##{ user }", 10));
    Ok(())
}

#[test]
fn a_refused_change_leaves_the_text_as_it_was(rt: HostRuntime) -> Result<(), Fail> {
    let alloc = rt.alloc();
    let mut text = Text::<GapBuffer>::from_str(alloc, "{ a }")?;
    let more = OwnedText::from_string("x".repeat(alloc, 4_194_305)?);
    let changes = [
        put_first(OwnedText::from_str(alloc, "#")?),
        Change::Whole(more),
    ];
    let told = text.apply_changes(alloc, PositionEncoding::Utf16, &changes);
    assert_eq!(rt; told, Err(TextError::TooLarge));
    assert!(rt; text.buffer().has_bytes(b"{ a }"));
    Ok(())
}
