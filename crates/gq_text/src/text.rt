//! Texts: at most 4 MiB of UTF-8 in a buffer.
ghost use Rattle.std.specs.Prelude.{◌≡◌, ℕ, ◌+◌, ◌<◌, ◌≤◌, ◌^◌, ◌↔◌, List, length, map, All, IsErr, IfOk, OnOk, OnErr};
ghost use Rattle.std.specs.List.Sorted.{IsNonDecreasing};
ghost use Rattle.std.specs.Str.{IsCharBoundary};
ghost use Rattle.std.specs.String.{string_bytes};
ghost use Rattle.gq_text.specs.Place.{pos, off};
ghost use Rattle.gq_text.specs.Bytes.{IsText, spliced};

use crate::buffer::{Buffer, NoMemory, VecBuffer};
use crate::owned::OwnedText;
use crate::place::{Position, PositionEncoding, Span};
use crate::scan;
use std::alloc::Global;
use std::marker::Model;
use thiserror::Error;

/// How many bytes a text may have: 4 MiB.
pub const TEXT_MAX: usize = 4_194_304;

/// A text would pass 4 MiB.
#[derive(Clone, Copy, Debug, PartialEq, Eq, Error)]
#[error("the text would pass 4 MiB")]
pub struct TooLarge;

/// Why a text was not made, or stays as it was.
#[derive(Clone, Copy, Debug, PartialEq, Eq, Error)]
pub enum TextError {
    /// The text would pass 4 MiB.
    #[error("the text would pass 4 MiB")]
    TooLarge,
    /// A growth was refused.
    #[error("no memory")]
    NoMemory,
}

impl From<TooLarge> for TextError {
    ghost use Rattle.std.specs.Prelude.{◌≡◌};
    ghost use Rattle.gq_text.specs.declared.text.TextError.TheVariants.{TooLarge};

    ghost from_gives = { λ _ e. e ≡ TooLarge };

    fn from(_error: TooLarge) -> Self {
        TextError::TooLarge
    }
}

impl From<NoMemory> for TextError {
    ghost use Rattle.std.specs.Prelude.{◌≡◌};
    ghost use Rattle.gq_text.specs.declared.text.TextError.TheVariants.{NoMemory};

    ghost from_gives = { λ _ e. e ≡ NoMemory };

    fn from(_error: NoMemory) -> Self {
        TextError::NoMemory
    }
}

/// A range of a text, by the positions of its ends; what stands at the end is no part of it (LSP 3.17, "Range").
#[derive(Clone, Copy, Debug, PartialEq, Eq)]
pub struct Range {
    pub start: Position,
    pub end: Position,
}

/// A change of a text (LSP 3.17, "TextDocumentContentChangeEvent").
#[derive(Debug, Drop, PartialEq, Eq)]
pub enum Change {
    /// The text becomes this one.
    Whole(OwnedText),
    /// What stands in the range becomes this text. The range's ends may stand in either order.
    Part(Range, OwnedText),
}

/// A text, seen as its bytes.
#[derive(Drop)]
pub struct Text<B: Buffer> {
    buffer: B,
}

impl<B: Buffer> Model for Text<B> {
    ghost Value = { List ℕ };

    ghost view = { λ t. B.contents t.buffer };

    ghost invariant = { λ t. IsText (B.contents t.buffer) };
}

impl<B: Buffer> Text<B> {
    ghost use Rattle.gq_text.specs.Change.{after_change, after_changes, FitEach};

    /// The text of a `&str`, where that has at most 4 MiB.
    pub fn from_str(alloc: Global, text: &str) -> Result<Self, TextError>
        ensures ok { IfOk result (λ t. t ≡ text.now) }
        ensures too_large { (result ≡ Err TextError.TooLarge) ↔ (2 ^ 22 < length text.now) }
    {
        Text::from_str_in(B::empty(alloc), text)
    }

    /// The text of a `&str`, where that has at most 4 MiB, in a buffer of the caller's, which may have room for more. What was in
    /// the buffer is taken out.
    pub fn from_str_in(mut buffer: B, text: &str) -> Result<Self, TextError>
        ensures ok { IfOk result (λ t. t ≡ text.now) }
        ensures too_large { (result ≡ Err TextError.TooLarge) ↔ (2 ^ 22 < length text.now) }
    {
        if text.len() > TEXT_MAX {
            return Err(TextError::TooLarge);
        }
        let len = buffer.len();
        buffer.remove(0, len);
        buffer.insert(0, text.as_bytes())?;
        Ok(Text { buffer })
    }

    /// How many bytes it has: at most 4 MiB.
    pub fn len(&self) -> usize
        ensures len { result ≡ length self.now }
        ensures text { IsText self.now }
    {
        self.buffer.len()
    }

    /// The offset in bytes of a position. In the middle of a character it means that character's start, past its line's
    /// content that content's end, and past the last line the text's end.
    pub fn offset_of(&self, encoding: PositionEncoding, position: Position) -> usize
        ensures offset { result ≡ off encoding self.now position }
        ensures boundary { IsCharBoundary self.now result }
    {
        scan::find_offset(encoding, &self.buffer, position)
    }

    /// The position of an offset in bytes.
    pub fn position_of(&self, encoding: PositionEncoding, offset: usize) -> Position
        requires { IsCharBoundary self.now offset }
        ensures { result ≡ pos encoding self.now offset }
    {
        scan::find_position(encoding, &self.buffer, offset)
    }

    /// The positions of offsets in bytes that never fall, found in one pass over the text.
    pub fn positions_of(
        &self,
        alloc: Global,
        encoding: PositionEncoding,
        offsets: &[usize],
    ) -> Result<Vec<Position>, NoMemory>
        requires boundaries { All (IsCharBoundary self.now) offsets.now }
        requires ascending { IsNonDecreasing offsets.now }
        ensures { IfOk result (λ positions. positions.items ≡ map (pos encoding self.now) offsets.now) }
    {
        scan::find_positions(alloc, encoding, &self.buffer, offsets)
    }

    /// Replaces what stands in the span. An error leaves the text as it was.
    pub fn splice(&mut self, span: Span, text: &str) -> Result<(), TextError>
        requires ordered { span.start ≤ span.end }
        requires start { IsCharBoundary self.old span.start }
        requires end { IsCharBoundary self.old span.end }
        ensures ok { OnOk result (self.new ≡ spliced self.old span.start span.end text.now) }
        ensures too_large { (result ≡ Err TextError.TooLarge) ↔ (2 ^ 22 < length (spliced self.old span.start span.end text.now)) }
        ensures err { OnErr result (self.new ≡ self.old) }
    {
        let new_len = self.len() - (span.end - span.start) + text.len();
        if new_len > TEXT_MAX {
            return Err(TextError::TooLarge);
        }
        self.buffer.insert(span.end, text.as_bytes())?;
        self.buffer.remove(span.start, span.end - span.start);
        Ok(())
    }

    /// Makes one change.
    fn apply(&mut self, encoding: PositionEncoding, change: &Change) -> Result<(), TextError>
        ensures ok { OnOk result (self.new ≡ after_change encoding self.old change.now) }
        ensures too_large { (result ≡ Err TextError.TooLarge) ↔ (2 ^ 22 < length (after_change encoding self.old change.now)) }
        ensures err { OnErr result (self.new ≡ self.old) }
    {
        match change {
            Change::Whole(text) => {
                let end = self.len();
                self.splice(Span { start: 0, end }, text.as_str())
            }
            Change::Part(range, text) => {
                let a = self.offset_of(encoding, range.start);
                let b = self.offset_of(encoding, range.end);
                let span = Span {
                    start: a.min(b),
                    end: a.max(b),
                };
                self.splice(span, text.as_str())
            }
        }
    }

    /// A text of its own with the same bytes.
    fn copy(&self, alloc: Global) -> Result<Self, NoMemory>
        ensures { IfOk result (λ t. t ≡ self.now) }
    {
        let bytes = self.buffer.copy_out(alloc, 0, self.buffer.len())?;
        let mut buffer = B::empty(alloc);
        buffer.insert(0, bytes.as_slice())?;
        Ok(Text { buffer })
    }

    /// Makes the changes in order, each in the result of the one before: all of them or none, and all in place. For several a
    /// copy of the text is made first, which is put back after a refusal, so `NoMemory` may come before `TooLarge`.
    pub fn apply_changes(
        &mut self,
        alloc: Global,
        encoding: PositionEncoding,
        changes: &[Change],
    ) -> Result<(), TextError>
        ensures ok { OnOk result (self.new ≡ after_changes encoding self.old changes.now) }
        ensures fits { OnOk result (FitEach encoding self.old changes.now) }
        ensures too_large { result ≡ Err TextError.TooLarge → ¬ FitEach encoding self.old changes.now }
        ensures too_large_alone { length changes.now ≤ 1 → ¬ FitEach encoding self.old changes.now → result ≡ Err TextError.TooLarge }
        ensures err { OnErr result (self.new ≡ self.old) }
    {
        match changes {
            [] => Ok(()),
            [change] => self.apply(encoding, change),
            _ => self.apply_all(alloc, encoding, changes),
        }
    }

    /// Makes the changes in order, or puts a copy of the text back.
    fn apply_all(
        &mut self,
        alloc: Global,
        encoding: PositionEncoding,
        changes: &[Change],
    ) -> Result<(), TextError>
        ensures ok { OnOk result (self.new ≡ after_changes encoding self.old changes.now) }
        ensures fits { OnOk result (FitEach encoding self.old changes.now) }
        ensures too_large { result ≡ Err TextError.TooLarge → ¬ FitEach encoding self.old changes.now }
        ensures err { OnErr result (self.new ≡ self.old) }
    {
        let before = self.copy(alloc)?;
        let done = self.apply_each(encoding, changes);
        if done.is_err() {
            *self = before;
        }
        done
    }

    /// Makes the changes in order. Those before a refused one stay made.
    fn apply_each(
        &mut self,
        encoding: PositionEncoding,
        changes: &[Change],
    ) -> Result<(), TextError>
        ensures ok { OnOk result (self.new ≡ after_changes encoding self.old changes.now) }
        ensures fits { OnOk result (FitEach encoding self.old changes.now) }
        ensures too_large { result ≡ Err TextError.TooLarge → ¬ FitEach encoding self.old changes.now }
    {
        for change in changes {
            self.apply(encoding, change)?;
        }
        Ok(())
    }

    /// The buffer that it is kept in, lent.
    pub fn buffer(&self) -> &B
        ensures { B.contents result.now ≡ self.now }
    {
        &self.buffer
    }

    /// The text as a `String` of its own.
    pub fn to_string(&self, alloc: Global) -> Result<String, NoMemory>
        ensures { IfOk result (λ t. string_bytes t ≡ self.now) }
    {
        let bytes = self.buffer.copy_out(alloc, 0, self.buffer.len())?;
        match String::from_utf8(bytes) {
            Ok(text) => Ok(text),
            Err(_) => unreachable!(),
        }
    }
}

impl Text<VecBuffer> {
    /// The text of an `OwnedText`, where that has at most 4 MiB. It takes no memory.
    pub fn from_owned(text: OwnedText) -> Result<Text<VecBuffer>, TooLarge>
        ensures ok { IfOk result (λ t. t ≡ text) }
        ensures too_large { IsErr result ↔ (2 ^ 22 < length text) }
    {
        if text.as_str().len() > TEXT_MAX {
            return Err(TooLarge);
        }
        Ok(Text {
            buffer: VecBuffer::from_vec(text.into_string().into_bytes()),
        })
    }
}
