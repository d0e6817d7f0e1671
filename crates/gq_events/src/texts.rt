//! Texts of the documents of a session.
ghost use Rattle.std.specs.Prelude.{◌≡◌, ◌<◌, ◌≤◌, ◌^◌, ◌↔◌, [], length, IsErr, IsTrue, IfOk, OnOk, OnErr};
ghost use Rattle.gq_text.specs.Change.{FitEach, after_changes};
ghost use Rattle.gq_events.specs.Texts.{held_bytes};

use gq_gap::GapBuffer;
use gq_text::text::TEXT_MAX;
use gq_text::{Change, NoMemory, OwnedText, PositionEncoding, Text, TextError, TooLarge};
use std::alloc::Global;
use std::marker::Model;

/// Where a text lies.
pub(crate) enum Held {
    /// In one piece, as it came.
    Whole(OwnedText),
    /// In a gap buffer, since it was changed.
    Edited(Text<GapBuffer>),
}

impl Drop for Held {
    fn drop(self) {
        match self {
            Held::Whole(_text) => {}
            Held::Edited(_text) => {}
        }
    }
}

/// The text of a document, seen as its bytes: at most 4 MiB. From its first change on it lies in a gap buffer.
pub struct OpenText {
    held: Held,
}

impl Drop for OpenText {
    fn drop(self) {
        let OpenText { held: _held } = self;
    }
}

impl Model for OpenText {
    ghost use Rattle.std.specs.Prelude.{ℕ, ◌≤◌, ◌^◌, List, length};
    ghost use Rattle.gq_events.specs.Texts.{held_bytes};

    ghost Value = { List ℕ };

    ghost view = { λ t. held_bytes t.held };

    ghost invariant = { λ t. length (held_bytes t.held) ≤ 2 ^ 22 };
}

/// For how many bytes more a gap buffer is made than the text has when it comes into it: few, since a gap that is far wider than what a
/// processor keeps at hand costs time at each move.
const ROOM: usize = 16_384;

/// A text with the changes made, in a gap buffer of its own.
fn edited(
    alloc: Global,
    encoding: PositionEncoding,
    text: &str,
    changes: &[Change],
) -> Result<Text<GapBuffer>, TextError>
    ensures changed { IfOk result (λ t. t ≡ after_changes encoding text.now changes.now) }
    ensures short { IfOk result (λ t. length t ≤ 2 ^ 22) }
    ensures fits { OnOk result (FitEach encoding text.now changes.now) }
{
    let buffer = GapBuffer::with_capacity(alloc, text.len().min(TEXT_MAX) + ROOM)?;
    let mut text = Text::from_str_in(buffer, text)?;
    text.apply_changes(alloc, encoding, changes)?;
    let len = text.len();
    prove!(len <= TEXT_MAX);
    Ok(text)
}

/// Makes the changes of a text in a gap buffer, where it lies.
fn edit(
    alloc: Global,
    encoding: PositionEncoding,
    text: &mut Text<GapBuffer>,
    changes: &[Change],
) -> Result<(), TextError>
    ensures ok { OnOk result (text.new ≡ after_changes encoding text.old changes.now) }
    ensures short { length text.new ≤ 2 ^ 22 }
    ensures fits { OnOk result (FitEach encoding text.old changes.now) }
    ensures err { OnErr result (text.new ≡ text.old) }
{
    let done = text.apply_changes(alloc, encoding, changes);
    let len = text.len();
    prove!(len <= TEXT_MAX);
    done
}

impl OpenText {
    /// A text without characters. It takes no memory.
    pub fn empty(alloc: Global) -> OpenText
        ensures { result ≡ [] }
    {
        OpenText {
            held: Held::Whole(OwnedText::from_string(String::new(alloc))),
        }
    }

    /// The text, where it has at most 4 MiB. It takes no memory.
    pub fn from_owned(text: OwnedText) -> Result<OpenText, TooLarge>
        ensures ok { IfOk result (λ t. t ≡ text) }
        ensures too_large { IsErr result ↔ (2 ^ 22 < length text) }
    {
        if text.as_str().len() > TEXT_MAX {
            return Err(TooLarge);
        }
        Ok(OpenText {
            held: Held::Whole(text),
        })
    }

    /// Whether this is the text. It is compared where it lies.
    pub fn is(&self, text: &str) -> bool
        ensures { IsTrue result ↔ (text.now ≡ self.now) }
    {
        match &self.held {
            Held::Whole(whole) => text == whole.as_str(),
            Held::Edited(edited) => edited.buffer().has_bytes(text.as_bytes()),
        }
    }

    /// It has at most 4 MiB.
    pub(crate) fn fits(&self)
        ensures { length self.now ≤ 2 ^ 22 }
    {
        let _held = &self.held;
    }

    /// A copy of the text, in one piece.
    pub fn copied(&self, alloc: Global) -> Result<OwnedText, NoMemory>
        ensures same { IfOk result (λ t. t ≡ self.now) }
        ensures short { IfOk result (λ t. length t ≤ 2 ^ 22) }
    {
        match &self.held {
            Held::Whole(whole) => whole.copied(alloc),
            Held::Edited(edited) => Ok(OwnedText::from_string(edited.to_string(alloc)?)),
        }
    }

    /// Makes the changes in order, each in the result of the one before: all of them or none. The first time it takes memory for
    /// a gap buffer, and after that only where the text outgrows it, or for several changes at once.
    pub fn apply_changes(
        &mut self,
        alloc: Global,
        encoding: PositionEncoding,
        changes: &[Change],
    ) -> Result<(), TextError>
        ensures ok { OnOk result (self.new ≡ after_changes encoding self.old changes.now) }
        ensures fits { OnOk result (FitEach encoding self.old changes.now) }
        ensures err { OnErr result (self.new ≡ self.old) }
    {
        let text = match &mut self.held {
            Held::Edited(text) => return edit(alloc, encoding, text, changes),
            Held::Whole(whole) => edited(alloc, encoding, whole.as_str(), changes)?,
        };
        self.held = Held::Edited(text);
        Ok(())
    }
}
