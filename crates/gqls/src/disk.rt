//! Files of the command line, read from the disk, and why one cannot be read.
ghost use Rattle.std.specs.Prelude.{◌≤◌, ◌^◌};

use crate::folder::read_front;
use gq_check::File;
use gq_check::files::FILES_MAX;
use gq_text::text::TEXT_MAX;
use gq_text::{NoMemory, OwnedText};
use std::alloc::Global;
use std::collections::BTreeSet;
use std::io;

/// How many bytes a table or variables may have.
const INPUT_MAX: u64 = 1_073_741_824;

/// The disk, and whether standard error is to say why a file cannot be read or written.
#[derive(Clone, Copy)]
pub struct Disk<'a> {
    pub rt: &'a HostRuntime,
    pub is_verbose: bool,
}

/// Whether there are more names than may be given.
fn are_too_many(alloc: Global, names: &[&str]) -> Result<bool, NoMemory> {
    let mut seen = BTreeSet::new(alloc);
    for name in names {
        seen.insert(*name)?;
    }
    Ok(seen.len() > FILES_MAX)
}

/// A file with these bytes.
pub fn file_of(alloc: Global, name: &str, bytes: Vec<u8>) -> Result<File, NoMemory> {
    Ok(File {
        name: OwnedText::from_str(alloc, name)?,
        bytes: Some(bytes),
        why: OwnedText::from_str(alloc, "")?,
    })
}

/// A file that cannot be read, or is not, and why.
fn unread(alloc: Global, name: &str, why: &str) -> Result<File, NoMemory> {
    Ok(File {
        name: OwnedText::from_str(alloc, name)?,
        bytes: None,
        why: OwnedText::from_str(alloc, why)?,
    })
}

impl Disk<'_> {
    /// Says on standard error what is wrong with a folder, where that is asked for.
    pub fn explain(&self, name: &str, why: &str) {
        if self.is_verbose {
            let _ = eprintln!(self.rt; "gqls: {name}: {why}");
        }
    }

    /// The same of a file that cannot be written, by an answer of the system.
    pub fn explain_error(&self, name: &str, error: &io::Error) {
        if self.is_verbose {
            let _ = eprintln!(self.rt; "gqls: {name}: {error}");
        }
    }

    /// A file, with up to that many of its bytes, or with what the system says where it cannot be read.
    fn read_file(&self, name: &str, limit: u64) -> Result<File, NoMemory>
        requires { limit ≤ 2 ^ 32 }
    {
        let alloc = self.rt.alloc();
        match read_front(self.rt, name, limit) {
            Ok(bytes) => file_of(alloc, name, bytes),
            Err(error) if error.kind() == io::ErrorKind::OutOfMemory => Err(NoMemory),
            Err(error) => {
                let why = format!(in alloc; "{error}")?;
                unread(alloc, name, why.as_str())
            }
        }
    }

    /// The file of a table or of variables. One of more than 1 GiB counts as one that cannot be read.
    pub fn read_input(&self, name: &str) -> Result<File, NoMemory> {
        let file = self.read_file(name, INPUT_MAX + 1)?;
        match &file.bytes {
            Some(bytes) if bytes.len() as u64 > INPUT_MAX => {
                unread(self.rt.alloc(), name, "more than 1 GiB")
            }
            _ => Ok(file),
        }
    }

    /// The files of these names, each read where its name first stands. None is read where there are too many, nor any behind
    /// one that is at fault, since what is printed is known then.
    pub fn read_files(&self, names: &[&str]) -> Result<Vec<File>, NoMemory> {
        let alloc = self.rt.alloc();
        let mut goes_on = !are_too_many(alloc, names)?;
        let mut seen = BTreeSet::new(alloc);
        let mut files = Vec::new(alloc);
        for name in names {
            if seen.insert(*name)? && goes_on {
                let file = self.read_file(name, TEXT_MAX as u64 + 1)?;
                goes_on = file.is_fit();
                files.push(file)?;
            } else {
                files.push(unread(alloc, name, "")?)?;
            }
        }
        Ok(files)
    }
}
