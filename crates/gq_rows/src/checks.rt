//! The check of files, and whether a project is valid.
ghost use Rattle.std.specs.Prelude.{◌≡◌, false};

use crate::no_answer::NoAnswer;
use crate::row::{Row, project_of};
use crate::telling::Telling;
use gq_check::{File, Format, check, check_by_threads};
use gq_diagnostics::words;
use gq_fault::Found;
use gq_rpc::Sink;
use gq_rules::{Valid, Why};
use gq_text::OwnedText;
use std::alloc::Global;
use std::thread::Threads;

/// A sink that keeps what is written to it.
#[derive(Drop)]
struct Page {
    bytes: Vec<u8>,
    failed: bool,
}

impl Page {
    fn new(alloc: Global) -> Page
        ensures { result.failed ≡ false }
    {
        Page {
            bytes: Vec::new(alloc),
            failed: false,
        }
    }
}

impl Sink for Page {
    ghost use Rattle.std.specs.Prelude.{None};

    ghost held = { λ _. None };

    ghost failed = { λ page. page.failed };

    fn write(&mut self, bytes: &[u8]) -> Option<usize> {
        if self.bytes.extend_from_slice(bytes).is_ok() {
            return Some(bytes.len());
        }
        self.failed = true;
        None
    }
}

/// The files that the texts of a row are.
fn files_of(alloc: Global, row: &Row<'_>) -> Result<Vec<File>, NoAnswer> {
    let mut files = Vec::new(alloc);
    for entry in &row.entries {
        files.push(File {
            name: OwnedText::from_str(alloc, entry.key)?,
            bytes: entry.bytes(alloc)?,
            why: OwnedText::from_str(alloc, "")?,
        })?;
    }
    Ok(files)
}

/// What a check of files writes to its output and to its errors, and its status.
#[derive(Drop)]
struct Outcome {
    output: Page,
    errors: Page,
    status: u8,
}

impl Outcome {
    fn is_same(&self, other: &Outcome) -> bool {
        self.status == other.status
            && self.output.bytes == other.output.bytes
            && self.errors.bytes == other.errors.bytes
    }

    fn tell(&self, telling: &mut Telling) -> Result<(), NoAnswer> {
        telling.put(str::from_utf8(&self.output.bytes)?);
        telling.put(str::from_utf8(&self.errors.bytes)?);
        telling.put_number(usize::from(self.status));
        Ok(())
    }
}

fn outcome_of(alloc: Global, files: &[File]) -> Outcome {
    let mut output = Page::new(alloc);
    let mut errors = Page::new(alloc);
    let status = check(alloc, Format::Text, false, files, &mut output, &mut errors);
    Outcome {
        output,
        errors,
        status,
    }
}

fn outcome_by_threads<R: Threads + Sync>(threads: &R, alloc: Global, files: Vec<File>) -> Outcome {
    let mut output = Page::new(alloc);
    let mut errors = Page::new(alloc);
    let status = check_by_threads(
        threads,
        alloc,
        Format::Text,
        false,
        files,
        &mut output,
        &mut errors,
    );
    Outcome {
        output,
        errors,
        status,
    }
}

/// Tells what the check of the files writes, first to its output and then to its errors, and its status; and what the check
/// by threads does, where that differs.
pub fn tell_check<R: Threads + Sync>(
    threads: &R,
    alloc: Global,
    row: &Row<'_>,
    telling: &mut Telling,
) -> Result<(), NoAnswer> {
    let files = files_of(alloc, row)?;
    let one = outcome_of(alloc, &files);
    let other = outcome_by_threads(threads, alloc, files);
    one.tell(telling)?;
    if !one.is_same(&other) {
        telling.put(" by threads: ");
        other.tell(telling)?;
    }
    Ok(())
}

/// Tells what is found, a line each: the name of the text, the code, the bytes and the words.
fn tell_found(found: &[Found], telling: &mut Telling) {
    for one in found {
        if !telling.is_empty() {
            telling.put("\n");
        }
        telling.put(one.key.as_str());
        telling.put(":");
        telling.put(one.code.as_str());
        telling.put_span(one.span.start, one.span.end);
        telling.put(" ");
        telling.put(words(one.code));
    }
}

/// Tells whether the project is valid; else why it is not, and how many documents are handed back.
pub fn tell_validity(alloc: Global, row: &Row<'_>, telling: &mut Telling) -> Result<(), NoAnswer> {
    let project = project_of(alloc, &row.entries)?;
    match Valid::new(alloc, project) {
        Ok(valid) => {
            telling.put_number(valid.project().documents().len());
            telling.put(" valid");
        }
        Err(invalid) => {
            if let Why::Report(report) = &invalid.why {
                tell_found(&report.found, telling);
            }
            telling.put("\n");
            telling.put_number(invalid.project.documents().len());
            telling.put(" handed back");
        }
    }
    Ok(())
}
