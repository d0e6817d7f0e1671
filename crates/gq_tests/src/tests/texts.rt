//! Texts: positions of many offsets at once, limits, and texts as keys and in lists.
use gq_gap::GapBuffer;
use gq_text::{
    Buffer, Bytes, Change, Items, OwnedText, Position, PositionEncoding, Range, SmallText, Span,
    Text, TextError, TooLarge, VecBuffer,
};
use indexmap::IndexMap;
use std::alloc::Global;
use std::test::Fail;

fn at(line: u32, character: u32) -> Position {
    Position { line, character }
}

#[test]
fn positions_are_found_together(rt: HostRuntime) -> Result<(), Fail> {
    let text: Text<VecBuffer> = Text::from_str(rt.alloc(), "a\r\nb\rc\nd")?;
    let encoding = PositionEncoding::Utf16;
    let content_end = text.offset_of(encoding, at(0, 9));
    let second_end = text.offset_of(encoding, at(1, 5));
    let text_end = text.offset_of(encoding, at(9, 0));
    assert!(rt; content_end == 1 && second_end == 4 && text_end == 8);
    let offsets = [content_end, second_end, text_end];
    let found = text.positions_of(rt.alloc(), encoding, &offsets)?;
    assert_eq!(rt; found.as_slice(), [at(0, 1), at(1, 1), at(3, 1)].as_slice());
    Ok(())
}

#[test]
fn characters_are_counted_in_bytes(rt: HostRuntime) -> Result<(), Fail> {
    let alloc = rt.alloc();
    let emoji = Range {
        start: at(0, 2),
        end: at(0, 6),
    };
    let changes = [Change::Part(emoji, OwnedText::from_str(alloc, "y")?)];
    let mut text: Text<VecBuffer> = Text::from_str(alloc, "é😀x")?;
    text.apply_changes(alloc, PositionEncoding::Utf8, &changes)?;
    assert_eq!(rt; text.to_string(alloc)?.as_str(), "éyx");
    Ok(())
}

/// What is answered where a text of 4 MiB would pass that by a byte, by the second of two changes and by a splice, and its
/// length then.
fn refused<B: Buffer>(
    alloc: Global,
    text: &mut Text<B>,
    more: OwnedText,
) -> Result<(Result<(), TextError>, Result<(), TextError>, usize), Fail> {
    let changes = [
        Change::Whole(OwnedText::from_str(alloc, "z")?),
        Change::Whole(more),
    ];
    let whole = text.apply_changes(alloc, PositionEncoding::Utf16, &changes);
    let start = text.offset_of(PositionEncoding::Utf16, at(0, 0));
    let spliced = text.splice(Span { start, end: start }, "y");
    Ok((whole, spliced, text.len()))
}

#[test]
fn a_text_comes_into_a_buffer_with_room(rt: HostRuntime) -> Result<(), Fail> {
    let alloc = rt.alloc();
    let mut buffer = GapBuffer::with_capacity(alloc, 9)?;
    buffer.insert(0, b"before")?;
    let mut text = Text::from_str_in(buffer, "abc")?;
    let end = text.offset_of(PositionEncoding::Utf8, at(1, 0));
    text.splice(Span { start: end, end }, "defghi")?;
    assert_eq!(rt; text.to_string(alloc)?.as_str(), "abcdefghi");
    assert_eq!(rt; text.buffer().capacity(), 9);
    Ok(())
}

#[test]
fn a_text_has_at_most_4_mib(rt: HostRuntime) -> Result<(), Fail> {
    let alloc = rt.alloc();
    let most = OwnedText::from_string("x".repeat(alloc, 4_194_304)?);
    let more = OwnedText::from_string("x".repeat(alloc, 4_194_305)?);
    let too_large = Err(TextError::TooLarge);
    let mut gapped = Text::<GapBuffer>::from_str(alloc, most.as_str())?;
    let mut plain = Text::from_owned(most)?;
    let told = refused(alloc, &mut gapped, more.copied(alloc)?)?;
    assert_eq!(rt; told, (too_large, too_large, 4_194_304));
    let told = refused(alloc, &mut plain, more.copied(alloc)?)?;
    assert_eq!(rt; told, (too_large, too_large, 4_194_304));
    assert_eq!(rt; Text::from_owned(more).err(), Some(TooLarge));
    Ok(())
}

#[test]
fn owned_texts_are_compared_and_printed(rt: HostRuntime) -> Result<(), Fail> {
    let alloc = rt.alloc();
    let one = OwnedText::from_str(alloc, "Query")?;
    let other = OwnedText::from_str(alloc, "QueryRoot")?;
    let same = one.copied(alloc)? == one;
    let told = format!(in alloc; "{one:?} {same} {} {}", one == other, one < other)?;
    assert_eq!(rt; told.as_str(), "\"Query\" true false true");
    Ok(())
}

#[test]
fn lists_are_compared(rt: HostRuntime) -> Result<(), Fail> {
    let alloc = rt.alloc();
    let mut names = Items::new(alloc);
    let was_empty = names.is_empty();
    names.push(OwnedText::from_str(alloc, "Query")?)?;
    let others = Items::from_vec(vec![in alloc; OwnedText::from_str(alloc, "QueryRoot")?]?);
    assert_eq!(rt; (was_empty, names.len(), names == others), (true, 1, false));
    Ok(())
}

#[test]
fn small_texts_are_keys(rt: HostRuntime) -> Result<(), Fail> {
    let alloc = rt.alloc();
    let mut map = IndexMap::new(alloc);
    let _ = map.insert(SmallText::from_str(alloc, "sixteen_in_all_x")?, 0usize)?;
    let _ = map.insert(SmallText::from_str(alloc, "seventeen_in_all_")?, 1usize)?;
    let short = map.get("sixteen_in_all_x").copied();
    let long = map.get("seventeen_in_all_").copied();
    let none = map.get("seventeen_in_all").copied();
    assert_eq!(rt; (short, long, none), (Some(0), Some(1), None));
    Ok(())
}

#[test]
fn small_texts_are_copied_and_printed(rt: HostRuntime) -> Result<(), Fail> {
    let alloc = rt.alloc();
    let text = SmallText::from_str(alloc, "seventeen_in_all_")?;
    let same = text.copied(alloc)? == text;
    let told = format!(in alloc; "{text:?} {same}")?;
    assert_eq!(rt; told.as_str(), "\"seventeen_in_all_\" true");
    Ok(())
}

#[test]
fn a_buffer_gives_its_bytes_back(rt: HostRuntime) -> Result<(), Fail> {
    let alloc = rt.alloc();
    let mut buffer: VecBuffer = VecBuffer::empty(alloc);
    buffer.insert(0, b"ad")?;
    buffer.insert(1, b"bc")?;
    buffer.remove(0, 1);
    assert_eq!(rt; buffer.len(), 3);
    assert_eq!(rt; buffer.copy_out(alloc, 1, 3)?.as_slice(), b"cd".as_slice());
    Ok(())
}
