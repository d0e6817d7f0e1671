//! What an index keeps of each document, in the order of the keys.
ghost use Rattle.std.specs.Arc.{arc_value};
ghost use Rattle.std.specs.Prelude.{◌≡◌, ◌<◌, ◌≤◌, List, IfOk, OnOk, OnErr, length, map, remove, slice_set};
ghost use Rattle.std.specs.List.{insert};
ghost use Rattle.std.specs.List.Sorted.{IsBinarySearchResult, IsSearchInRange};
ghost use Rattle.std.specs.Cmp.Lexicographic.{slice_cmp};
ghost use Rattle.std.specs.Ordering.{nat_cmp};
ghost use Rattle.gq_tree.specs.Readings.{ParsedOf};
ghost use Rattle.gq_parse.specs.Parsed.{AreParsed};
ghost use Rattle.gq_index.specs.Indexed.{AreFilesOf};
ghost use Rattle.gq_index.specs.Parts.{parts_in};
ghost use Rattle.gq_index.specs.Views.{parts_held, parts_kept, parts_shared};

use crate::parts::Parts;
use gq_project::Doc;
use gq_text::{NoMemory, OwnedText};
use std::alloc::Global;
use std::marker::Model;
use std::sync::Arc;

/// What an index keeps of a document.
#[derive(Drop)]
pub struct File {
    pub(crate) key: OwnedText,
    pub(crate) parts: Arc<Parts>,
}

/// What an index keeps of each document, in the order of the keys.
#[derive(Drop)]
pub struct Files {
    files: Vec<File>,
}

impl Model for Files {
    ghost use Rattle.std.specs.Prelude.{List};
    ghost use Rattle.gq_index.specs.declared.files.File.{File};

    ghost Value = { List File };

    ghost view = { λ f. f.files.items };
}

impl File {
    /// What is kept of the document of that key.
    pub(crate) fn of(alloc: Global, key: &str, parts: Arc<Parts>) -> Result<File, NoMemory>
        ensures key { IfOk result (λ file. file.key ≡ key.now) }
        ensures parts { IfOk result (λ file. parts_kept file ≡ parts_held (arc_value parts)) }
    {
        Ok(File {
            key: OwnedText::from_str(alloc, key)?,
            parts,
        })
    }
}

impl Files {
    /// What is kept of these documents, one for each.
    pub(crate) fn of(
        alloc: Global,
        documents: &[Doc],
        parts: &[Arc<Parts>],
    ) -> Result<Files, NoMemory>
        ensures { IfOk result (λ files. (readings : List ParsedOf) → AreParsed documents.now readings → parts_shared parts.now ≡ map parts_in readings
            → AreFilesOf documents.now readings files) }
    {
        let mut files = Vec::with_capacity(alloc, documents.len())?;
        for (document, one) in documents.iter().zip(parts) {
            let shared = Arc::try_clone(one)?;
            files.push(File::of(alloc, document.key.as_str(), shared)?)?;
        }
        Ok(Files { files })
    }

    pub(crate) fn as_slice(&self) -> &[File]
        ensures { result.now ≡ self.now }
    {
        self.files.as_slice()
    }

    /// Where the document of that key is, or where it would go.
    pub(crate) fn place_or_gap(&self, key: &str) -> Result<usize, usize>
        ensures in_range { IsSearchInRange result (length self.now) }
        ensures place { IsBinarySearchResult (λ file. slice_cmp nat_cmp file.key key.now) self.now result }
    {
        self.files
            .binary_search_by(|file| file.key.as_str().cmp(&key))
    }

    /// Writes what is kept of a document over what is at that place. It takes no memory.
    pub(crate) fn write_over(&mut self, at: usize, file: File)
        requires { at < length self.old }
        ensures { self.new ≡ slice_set self.old at file }
    {
        self.files[at] = file;
    }

    /// Puts in at that place what is kept of one more document.
    pub(crate) fn put_in(&mut self, at: usize, file: File) -> Result<(), NoMemory>
        requires { at ≤ length self.old }
        ensures ok { OnOk result (self.new ≡ insert self.old at file) }
        ensures err { OnErr result (self.new ≡ self.old) }
    {
        match self.files.insert(at, file) {
            Ok(()) => Ok(()),
            Err(_) => Err(NoMemory),
        }
    }

    /// Takes out what is at that place. It takes no memory.
    pub(crate) fn take_out(&mut self, at: usize)
        requires { at < length self.old }
        ensures { self.new ≡ remove self.old at }
    {
        let _ = self.files.remove(at);
    }
}
