//! What was made of documents, each by itself, and is kept as long as they stay.
ghost use Rattle.std.specs.Prelude.{◌≡◌, ◌<◌, ◌≤◌, [], None, OnOk, length, remove, slice_set};
ghost use Rattle.std.specs.List.{insert};
ghost use Rattle.gq_kept.specs.Helping.Noted.{IsNoMore};

use gq_text::NoMemory;
use std::alloc::Global;

/// For each document what was made of it, or nothing, where that was not made; behind the last one nothing was.
#[derive(Drop)]
pub(crate) struct Noted<T: Drop> {
    pub(crate) notes: Vec<Option<T>>,
}

impl<T: Drop> Noted<T> {
    /// Nothing was made.
    pub(crate) fn new(alloc: Global) -> Noted<T>
        ensures { result.notes.items ≡ [] }
    {
        Noted {
            notes: Vec::new(alloc),
        }
    }

    /// Notes of the document of that number that nothing was made, where nothing is noted of it. Of the documents before it something is.
    pub(crate) fn reach(&mut self, file: usize) -> Result<(), NoMemory>
        requires { file ≤ length self.old.notes.items }
        ensures stays { IsNoMore self.old.notes.items self.new.notes.items }
        ensures noted { OnOk result (file < length self.new.notes.items) }
    {
        if file < self.notes.len() {
            return Ok(());
        }
        self.notes.push(None)?;
        Ok(())
    }

    /// Forgets what was made of the document at that place.
    pub(crate) fn forget(&mut self, at: usize)
        ensures { IsNoMore (slice_set self.old.notes.items at None) self.new.notes.items }
    {
        if at < self.notes.len() {
            self.notes[at] = None;
        }
    }

    /// What was made stays where a document is put in at that place; where there is no memory, that of the documents before it.
    pub(crate) fn make_room(&mut self, at: usize)
        ensures { IsNoMore (insert self.old.notes.items at None) self.new.notes.items }
    {
        if at < self.notes.len() && self.notes.insert(at, None).is_err() {
            self.notes.truncate(at);
        }
    }

    /// What was made of the others stays where the document at that place is taken out.
    pub(crate) fn close_room(&mut self, at: usize)
        ensures { IsNoMore (remove self.old.notes.items at) self.new.notes.items }
    {
        if at < self.notes.len() {
            let _ = self.notes.remove(at);
        }
    }
}
