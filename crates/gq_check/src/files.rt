//! Files of the command line, and the documents that they are.
ghost use Rattle.std.specs.Prelude.{◌≡◌, ◌≤◌, ◌^◌, [], All, length, map, None, is_none, IfOk, IfErr, OnOk};
ghost use Rattle.std.specs.Option.{option_map};
ghost use Rattle.gq_check.specs.Files.{content_of, doc_of, documents_of_each, distinct, file_fault, first_fault, files_fault, documents_of};
ghost use Rattle.gq_check.specs.Faults.{IsFaultOr};
ghost use Rattle.gq_check.specs.Reasons.{file_flaw};

use crate::fault::CheckFault;
use crate::reasons::flaw_of;
use gq_names::NameList;
use gq_project::{Doc, Project};
use gq_text::text::TEXT_MAX;
use gq_text::{NoMemory, OwnedText};
use std::alloc::Global;
use std::str::from_utf8;

/// How many names may be given.
pub const FILES_MAX: usize = 4_096;

/// A file of the command line: its name as it was given, and its bytes, or none where it cannot be read. What `--verbose`
/// says of it then is `why`.
#[derive(Debug, Drop)]
pub struct File {
    pub name: OwnedText,
    pub bytes: Option<Vec<u8>>,
    pub why: OwnedText,
}

impl File {
    /// Whether it is a file of a project: it can be read, has at most 4 MiB, and is UTF-8.
    pub fn is_fit(&self) -> bool
        ensures { result ≡ is_none (file_flaw self.now) }
    {
        flaw_of(self).is_none()
    }

    /// Its bytes, if it can be read.
    pub(crate) fn content(&self) -> Option<&[u8]>
        ensures { option_map (λ bytes. bytes.now) result ≡ content_of self.now }
    {
        match &self.bytes {
            Some(bytes) => Some(bytes.as_slice()),
            None => None,
        }
    }
}

/// The project of the files: a document of each name, of the file that stands first.
pub fn read_project(alloc: Global, files: &[File]) -> Result<Project, CheckFault>
    ensures accepted { OnOk result (files_fault files.now ≡ None) }
    ensures documents { IfOk result (λ project. project ≡ documents_of files.now) }
    ensures texts { IfOk result (λ project. All (λ doc. length doc.text ≤ 2 ^ 22) project) }
    ensures refused { IfErr result (IsFaultOr (files_fault files.now)) }
{
    let firsts = first_files(alloc, files)?;
    if firsts.len() > FILES_MAX {
        return Err(CheckFault::TooMany);
    }
    put_each(alloc, &firsts)
}

/// The files whose names stand in no earlier one.
pub(crate) fn first_files<'a>(alloc: Global, files: &'a [File]) -> Result<Vec<&'a File>, NoMemory>
    ensures { IfOk result (λ firsts. map (λ file. file.now) firsts.items ≡ distinct files.now) }
{
    let mut names = NameList::new(alloc);
    let mut firsts = Vec::new(alloc);
    for file in files {
        if names.push(file.name.as_str())? {
            firsts.push(file)?;
        }
    }
    Ok(firsts)
}

/// The project of these files.
fn put_each(alloc: Global, files: &[&File]) -> Result<Project, CheckFault>
    ensures accepted { OnOk result (first_fault (map (λ file. file.now) files.now) ≡ None) }
    ensures documents { IfOk result (λ project. project ≡ documents_of_each [] (map (λ file. file.now) files.now)) }
    ensures texts { IfOk result (λ project. All (λ doc. length doc.text ≤ 2 ^ 22) project) }
    ensures refused { IfErr result (IsFaultOr (first_fault (map (λ file. file.now) files.now))) }
{
    let mut project = Project::new(alloc);
    for file in files {
        project.put(read_document(alloc, file)?)?;
    }
    Ok(project)
}

/// The document that a file is.
fn read_document(alloc: Global, file: &File) -> Result<Doc, CheckFault>
    ensures accepted { OnOk result (file_fault file.now ≡ None) }
    ensures document { IfOk result (λ doc. doc ≡ doc_of file.now) }
    ensures text { IfOk result (λ doc. length doc.text ≤ 2 ^ 22) }
    ensures refused { IfErr result (IsFaultOr (file_fault file.now)) }
{
    let Some(bytes) = &file.bytes else {
        return Err(CheckFault::Device);
    };
    if bytes.len() > TEXT_MAX {
        return Err(CheckFault::TooLarge);
    }
    let Ok(text) = from_utf8(bytes) else {
        return Err(CheckFault::Device);
    };
    Ok(Doc {
        key: file.name.copied(alloc)?,
        uri: file.name.copied(alloc)?,
        version: Some(1),
        text: OwnedText::from_str(alloc, text)?,
    })
}
