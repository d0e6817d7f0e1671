//! What is told of a row.
use crate::no_answer::NoAnswer;
use std::alloc::Global;
use std::fmt::Debug;

/// A text that grows, piece by piece. Where memory is refused it stays as it is from then on, and is no text in the end.
#[derive(Drop)]
pub struct Telling {
    text: String,
    is_cut: bool,
}

impl Telling {
    pub fn new(alloc: Global) -> Telling {
        Telling {
            text: String::new(alloc),
            is_cut: false,
        }
    }

    pub fn put(&mut self, piece: &str) {
        self.is_cut = self.is_cut || self.text.push_str(piece).is_err();
    }

    pub fn put_number(&mut self, number: usize) {
        self.is_cut = self.is_cut || write!(self.text, "{number}").is_err();
    }

    /// A value as `{:?}` writes it.
    pub fn put_debug<D: Debug>(&mut self, value: &D) {
        self.is_cut = self.is_cut || write!(self.text, "{value:?}").is_err();
    }

    /// Words, parted by blanks, or `none`.
    pub fn put_words(&mut self, words: &[&str]) {
        for (number, word) in words.iter().enumerate() {
            self.put(if number > 0 { " " } else { "" });
            self.put(word);
        }
        if words.is_empty() {
            self.put("none");
        }
    }

    /// The bytes from `start` to before `end`.
    pub fn put_span(&mut self, start: usize, end: usize) {
        self.put("[");
        self.put_number(start);
        self.put(",");
        self.put_number(end);
        self.put("]");
    }

    pub fn put_yes_or_no(&mut self, holds: bool) {
        self.put(if holds { "yes" } else { "no" });
    }

    pub fn is_empty(&self) -> bool {
        self.text.is_empty()
    }

    pub fn into_text(self) -> Result<String, NoAnswer> {
        if self.is_cut {
            return Err(NoAnswer);
        }
        Ok(self.text)
    }
}
