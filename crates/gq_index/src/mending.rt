//! The index of a project of which one document changes: only that document is read, and the tables are made anew of what is kept
//! of all.
ghost use Rattle.std.specs.Prelude.{◌≡◌, ◌<◌, ◌≤◌, None, List, OnOk, OnErr, find, length, remove, slice_set};
ghost use Rattle.std.specs.List.{insert};
ghost use Rattle.gq_project.specs.declared.document.Doc.{Doc};
ghost use Rattle.gq_project.specs.Documents.{IsInOrder, has_key, with_doc, without};
ghost use Rattle.gq_tree.specs.Readings.{parsed_view};
ghost use Rattle.gq_parse.specs.Parsed.{IsParsed};
ghost use Rattle.gq_index.specs.Helping.Made.{IsMadeOf};
ghost use Rattle.gq_index.specs.Indexed.{IsIndexOfProject};

use crate::files::File;
use crate::index::Index;
use crate::making::tables_of;
use crate::parts::Parts;
use gq_parse::reader::read_text;
use gq_project::Doc;
use gq_text::NoMemory;
use gq_tree::Parsed;
use std::alloc::Global;

impl Index {
    /// Adds the document to the index, or replaces the one of its key. No other text is read.
    pub fn replace_file(&mut self, alloc: Global, doc: &Doc) -> Result<(), NoMemory>
        ensures ok { OnOk result ((documents : List Doc) → IsInOrder documents → IsIndexOfProject documents self.old → IsIndexOfProject (with_doc documents doc.now) self.new) }
        ensures err { OnErr result (self.new ≡ self.old) }
    {
        let reading = read_text(alloc, doc.text.as_str())?;
        self.replace_read(alloc, doc.key.as_str(), &reading)
    }

    /// Adds the document of that key, whose text is read so, or replaces the one of its key. No text is read.
    pub fn replace_read(
        &mut self,
        alloc: Global,
        key: &str,
        reading: &Parsed,
    ) -> Result<(), NoMemory>
        ensures ok { OnOk result ((documents : List Doc) (doc : Doc) → doc.key ≡ key.now → IsParsed doc.text (parsed_view reading.now) →
            IsInOrder documents → IsIndexOfProject documents self.old → IsIndexOfProject (with_doc documents doc) self.new) }
        ensures err { OnErr result (self.new ≡ self.old) }
    {
        let parts = Parts::shared_of(alloc, reading)?;
        let file = File::of(alloc, key, parts)?;
        match self.files.place_or_gap(key) {
            Ok(at) => self.replace_at(alloc, at, file),
            Err(at) => self.insert_at(alloc, at, file),
        }
    }

    /// Takes the document of that key out of the index. Where there is none, all stays, and no memory is taken.
    pub fn drop_file(&mut self, alloc: Global, key: &str) -> Result<(), NoMemory>
        ensures ok { OnOk result ((documents : List Doc) → IsInOrder documents → IsIndexOfProject documents self.old → IsIndexOfProject (without documents key.now) self.new) }
        ensures err { OnErr result (self.new ≡ self.old) }
        ensures absent { (documents : List Doc) → IsIndexOfProject documents self.old → find (has_key key.now) documents ≡ None → self.new ≡ self.old }
    {
        match self.files.place_or_gap(key) {
            Ok(at) => self.drop_at(alloc, at),
            Err(_) => Ok(()),
        }
    }

    /// Replaces what is kept of the document at that place.
    fn replace_at(&mut self, alloc: Global, at: usize, file: File) -> Result<(), NoMemory>
        requires { at < length self.old.files }
        ensures ok { OnOk result (IsMadeOf (slice_set self.old.files at file) self.new) }
        ensures err { OnErr result (self.new ≡ self.old) }
    {
        let files = self.files.as_slice();
        let tables = tables_of(alloc, &files[..at], &[&file], &files[at + 1..])?;
        self.files.write_over(at, file);
        self.tables = tables;
        Ok(())
    }

    /// Puts in at that place what is kept of one more document.
    fn insert_at(&mut self, alloc: Global, at: usize, file: File) -> Result<(), NoMemory>
        requires { at ≤ length self.old.files }
        ensures ok { OnOk result (IsMadeOf (insert self.old.files at file) self.new) }
        ensures err { OnErr result (self.new ≡ self.old) }
    {
        let files = self.files.as_slice();
        let tables = tables_of(alloc, &files[..at], &[&file], &files[at..])?;
        self.files.put_in(at, file)?;
        self.tables = tables;
        Ok(())
    }

    /// Takes out what is kept of the document at that place.
    fn drop_at(&mut self, alloc: Global, at: usize) -> Result<(), NoMemory>
        requires { at < length self.old.files }
        ensures ok { OnOk result (IsMadeOf (remove self.old.files at) self.new) }
        ensures err { OnErr result (self.new ≡ self.old) }
    {
        let files = self.files.as_slice();
        let tables = tables_of(alloc, &files[..at], &[], &files[at + 1..])?;
        self.files.take_out(at);
        self.tables = tables;
        Ok(())
    }
}
