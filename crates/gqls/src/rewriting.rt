//! Edited files, written to the disk.

use crate::disk::Disk;
use gq_codemod::EditedFile;
use std::fs::{File, OpenFile, OpenOptions, Permissions};
use std::io::Write;
use std::{fs, io};

/// What the name of a new file ends in, before it comes in the place of the old one.
const DRAFT_ENDING: &str = ".gqls-new";

/// A new file beside the one in whose place it comes. Both are paths.
#[derive(Drop)]
struct Draft {
    draft: String,
    target: String,
}

impl Draft {
    /// Where the new text of a file is written first, and then comes. A link is followed.
    fn place(rt: &HostRuntime, name: &str) -> io::Result<Draft> {
        let path = fs::canonicalize(rt, name)?;
        let target = String::from_str(rt.alloc(), path.as_str())?;
        let mut draft = String::from_str(rt.alloc(), path.as_str())?;
        draft.push_str(DRAFT_ENDING)?;
        Ok(Draft { draft, target })
    }

    /// Makes the new file, where there is none of its name.
    fn create(&self, rt: &HostRuntime) -> io::Result<File> {
        let mut options = OpenOptions::new();
        options.write(true).create_new(true);
        options.open(rt, self.draft.as_str())
    }

    /// Writes the text to the new file, and gives it the permissions of the old one.
    fn fill(&self, rt: &HostRuntime, file: &mut File, text: &str) -> io::Result<()> {
        let permissions = fs::metadata(rt, self.target.as_str())?.permissions();
        file.write_all(text.as_bytes())?;
        file.set_permissions(permissions)?;
        file.sync_all()
    }

    /// Takes the new file away, where it is still there.
    fn remove(&self, rt: &HostRuntime) {
        let _ = fs::remove_file(rt, self.draft.as_str());
    }
}

/// Writes the text of an edited file to a new file beside it. One that cannot be finished is taken away.
fn write_draft(rt: &HostRuntime, file: &EditedFile) -> io::Result<Draft> {
    let draft = Draft::place(rt, file.name.as_str())?;
    let mut created = draft.create(rt)?;
    match draft.fill(rt, &mut created, file.text.as_str()) {
        Ok(()) => Ok(draft),
        Err(error) => {
            draft.remove(rt);
            Err(error)
        }
    }
}

/// Takes those of the new files away that are not yet in their places.
fn remove_drafts(rt: &HostRuntime, drafts: &[Draft]) {
    for draft in drafts {
        draft.remove(rt);
    }
}

/// Writes all new files, or none: those before one that cannot be written are taken away.
fn write_drafts(disk: Disk<'_>, files: &[EditedFile]) -> io::Result<Vec<Draft>> {
    let mut drafts = Vec::with_capacity(disk.rt.alloc(), files.len())?;
    for file in files {
        match write_draft(disk.rt, file) {
            Ok(draft) => drafts.push(draft)?,
            Err(error) => {
                disk.explain_error(file.name.as_str(), &error);
                remove_drafts(disk.rt, &drafts);
                return Err(error);
            }
        }
    }
    Ok(drafts)
}

/// Puts the new files in their places. Where one cannot be put there, it is taken away with those behind it.
fn place_drafts(disk: Disk<'_>, drafts: &[Draft]) -> io::Result<()> {
    for draft in drafts {
        if let Err(error) = fs::rename(disk.rt, draft.draft.as_str(), draft.target.as_str()) {
            disk.explain_error(draft.target.as_str(), &error);
            remove_drafts(disk.rt, drafts);
            return Err(error);
        }
    }
    Ok(())
}

/// Writes the edited files: each to a new file beside it, and once all are written, each in its place.
pub fn write_files(disk: Disk<'_>, files: &[EditedFile]) -> io::Result<()> {
    let drafts = write_drafts(disk, files)?;
    place_drafts(disk, &drafts)
}
