//! The program: `gqls serve --root DIR` serves the language server protocol on the standard streams, over the files of a
//! folder, `gqls check FILE..` prints what is wrong with files, `gqls exec --table FILE FILE..` executes an operation of them, and
//! `gqls rename FILE:LINE:COLUMN NAME FILE..` renames a fragment or a variable in them.
#![tactic(auto)]

mod disk;
mod folder;
mod rewriting;

ghost use Rattle.std.specs.Prelude.{◌≡◌, false};

use crate::disk::{Disk, file_of};
use crate::folder::{Folder, paths_in, read_root};
use crate::rewriting::write_files;
use clap::error::ErrorKind;
use clap::{ArgMatches, Error};
use gq_check::{File, Format, check_by_threads, exec, print, refuse};
use gq_codemod::{Renaming, rename_by_threads};
use gq_command_line::{no_folder, no_place, not_utf8, parse_words};
use gq_crew::{Ended, Files, NoFiles, Open, Ran, RunFault};
use gq_reader::loads::fault_of;
use gq_rpc::Flagged;
use gq_text::{NoMemory, Position};
use std::alloc::Global;
use std::io;
use std::process::ExitCode;
use std::sync::Wait;
use std::thread::Threads;

/// The status where the words of the command line are no command.
const USAGE_STATUS: u8 = 2;

/// The status where memory or a standard stream fails.
const FAULT_STATUS: u8 = 3;

/// Tells a fault on the standard error, and answers the status.
fn tell_fault(rt: &HostRuntime, fault: RunFault) -> u8 {
    let _ = eprintln!(rt; "gqls: {fault}");
    FAULT_STATUS
}

/// Prints help, or why the words are no command, and answers the status.
fn explain(rt: &HostRuntime, error: &Error) -> u8 {
    if error.kind() == ErrorKind::OutOfMemory {
        return tell_fault(rt, RunFault::NoMemory);
    }
    match error.print(rt) {
        Ok(()) if error.use_stderr() => USAGE_STATUS,
        Ok(()) => 0,
        Err(_) => tell_fault(rt, RunFault::Device),
    }
}

/// Tells why the words cannot be read, and answers the status. One that is not UTF-8 is no command, whatever stands beside it.
fn explain_unread(rt: &HostRuntime, error: &io::Error) -> u8 {
    if error.kind() == io::ErrorKind::OutOfMemory {
        return tell_fault(rt, RunFault::NoMemory);
    }
    match not_utf8(rt.alloc()) {
        Ok(error) => explain(rt, &error),
        Err(_) => tell_fault(rt, RunFault::NoMemory),
    }
}

/// Serves on the standard streams with so many workers, over those files.
fn serve_over<R: Threads + Wait + Sync, F: Files + Send + Drop>(
    threads: &R,
    rt: &HostRuntime,
    workers: u8,
    files: F,
) -> u8
    requires { F.failed files ≡ false }
{
    let input = Flagged::new(rt.stdin());
    let output = Flagged::new(rt.stdout());
    let Ran { ended, .. } = gq_crew::run(threads, rt.alloc(), workers, input, output, &Open, files);
    let Ended { status, fault } = ended;
    match fault {
        Some(fault) => tell_fault(rt, fault),
        None => status,
    }
}

/// Serves over the files of the folder of that path.
fn serve_folder<R: Threads + Wait + Sync>(
    threads: &R,
    rt: &HostRuntime,
    workers: u8,
    path: &str,
) -> u8 {
    match Folder::new(rt, path) {
        Ok(folder) => serve_over(threads, rt, workers, folder),
        Err(NoMemory) => tell_fault(rt, RunFault::NoMemory),
    }
}

/// Tells that a word names no folder, and answers the status.
fn explain_root(rt: &HostRuntime, word: &str) -> u8 {
    match no_folder(rt.alloc(), word) {
        Ok(error) => explain(rt, &error),
        Err(_) => tell_fault(rt, RunFault::NoMemory),
    }
}

/// Serves over the files of the folder that the words name, or over those alone that are open.
fn serve<R: Threads + Wait + Sync>(threads: &R, rt: &HostRuntime, words: &ArgMatches<'_>) -> u8 {
    let workers = words.get_one("workers").unwrap_or(0);
    match words.get_str("root") {
        None => serve_over(threads, rt, workers, NoFiles),
        Some(word) => match read_root(word) {
            Some(path) => serve_folder(threads, rt, workers, path),
            None => explain_root(rt, word),
        },
    }
}

/// The texts, lent.
fn lent<'a>(alloc: Global, texts: &'a [String]) -> Result<Vec<&'a str>, NoMemory> {
    let mut all = Vec::new(alloc);
    for text in texts {
        all.push(text.as_str())?;
    }
    Ok(all)
}

/// The disk, and whether the words ask for which file is at fault, and why.
fn disk_of<'a>(rt: &'a HostRuntime, words: &ArgMatches<'_>) -> Disk<'a> {
    Disk {
        rt,
        is_verbose: words.get_flag("verbose"),
    }
}

/// The files of the folder of that path, or the status where they cannot be read.
fn folder_files(disk: Disk<'_>, path: &str) -> Result<Vec<File>, u8> {
    let paths = match paths_in(disk.rt, path) {
        Ok(paths) => paths,
        Err(fault) => {
            disk.explain(path, "the folder cannot be read");
            return Err(tell_fault(disk.rt, fault_of(fault)));
        }
    };
    match lent(disk.rt.alloc(), &paths) {
        Ok(names) => named_files(disk, &names),
        Err(NoMemory) => Err(tell_fault(disk.rt, RunFault::NoMemory)),
    }
}

/// The files of these names, or the status where there is no memory for them.
fn named_files(disk: Disk<'_>, names: &[&str]) -> Result<Vec<File>, u8> {
    match disk.read_files(names) {
        Ok(files) => Ok(files),
        Err(NoMemory) => Err(tell_fault(disk.rt, RunFault::NoMemory)),
    }
}

/// The files that the words name, or those of the folder that they name, or the status where they cannot be read.
fn files_of(disk: Disk<'_>, words: &ArgMatches<'_>) -> Result<Vec<File>, u8> {
    match words.get_str("root") {
        None => named_files(disk, words.get_raw("files").unwrap_or(&[])),
        Some(word) => match read_root(word) {
            Some(path) => folder_files(disk, path),
            None => Err(explain_root(disk.rt, word)),
        },
    }
}

/// The form in which the words ask for faults.
fn format_of(words: &ArgMatches<'_>) -> Format {
    match words.get_str("format") {
        Some("json") => Format::Json,
        Some("github") => Format::Github,
        _ => Format::Text,
    }
}

/// Checks the files that the words name, by threads.
fn check<R: Threads + Sync>(threads: &R, rt: &HostRuntime, words: &ArgMatches<'_>) -> u8 {
    let disk = disk_of(rt, words);
    let files = match files_of(disk, words) {
        Ok(files) => files,
        Err(status) => return status,
    };
    let mut output = Flagged::new(rt.stdout());
    let mut errors = Flagged::new(rt.stderr());
    check_by_threads(
        threads,
        rt.alloc(),
        format_of(words),
        disk.is_verbose,
        files,
        &mut output,
        &mut errors,
    )
}

/// What is given to an execution beside the name of the operation.
#[derive(Drop)]
struct Inputs {
    table: File,
    variables: File,
    files: Vec<File>,
}

/// The file of the variables; one of no variables where none is named.
fn read_variables(disk: Disk<'_>, name: Option<&str>) -> Result<File, NoMemory> {
    let alloc = disk.rt.alloc();
    match name {
        Some(name) => disk.read_input(name),
        None => file_of(alloc, "", Vec::from_slice(alloc, b"{}")?),
    }
}

/// Reads the table, the variables and the files that the words name.
fn read_inputs(disk: Disk<'_>, words: &ArgMatches<'_>) -> Result<Inputs, NoMemory> {
    Ok(Inputs {
        table: disk.read_input(words.get_str("table").unwrap_or(""))?,
        variables: read_variables(disk, words.get_str("vars"))?,
        files: disk.read_files(words.get_raw("files").unwrap_or(&[]))?,
    })
}

/// Executes an operation of the files that the words name.
fn exec_files(rt: &HostRuntime, words: &ArgMatches<'_>) -> u8 {
    let disk = disk_of(rt, words);
    let Ok(inputs) = read_inputs(disk, words) else {
        return tell_fault(rt, RunFault::NoMemory);
    };
    let mut output = Flagged::new(rt.stdout());
    let mut errors = Flagged::new(rt.stderr());
    exec(
        rt.alloc(),
        disk.is_verbose,
        words.get_str("op"),
        &inputs.table,
        &inputs.variables,
        &inputs.files,
        &mut output,
        &mut errors,
    )
}

/// The file and the position that a word names as `FILE:LINE:COLUMN`. The position is counted from 0.
fn read_place(word: &str) -> Option<(&str, Position)> {
    let (front, column) = word.rsplit_once(':')?;
    let (file, line) = front.rsplit_once(':')?;
    let line = line.parse::<u32>().ok()?.checked_sub(1)?;
    let character = column.parse::<u32>().ok()?.checked_sub(1)?;
    Some((file, Position { line, character }))
}

/// Tells that a word names no place, and answers the status.
fn explain_place(rt: &HostRuntime, word: &str) -> u8 {
    match no_place(rt.alloc(), word) {
        Ok(error) => explain(rt, &error),
        Err(_) => tell_fault(rt, RunFault::NoMemory),
    }
}

/// Renames what is at the place that the words name.
fn rename_files<R: Threads + Sync>(threads: &R, rt: &HostRuntime, words: &ArgMatches<'_>) -> u8 {
    let word = words.get_str("place").unwrap_or("");
    match read_place(word) {
        Some((file, position)) => rename_at(threads, rt, words, file, position),
        None => explain_place(rt, word),
    }
}

/// Renames what is at that place, in the files that the words name.
fn rename_at<R: Threads + Sync>(
    threads: &R,
    rt: &HostRuntime,
    words: &ArgMatches<'_>,
    file: &str,
    position: Position,
) -> u8 {
    let disk = disk_of(rt, words);
    let files = match files_of(disk, words) {
        Ok(files) => files,
        Err(status) => return status,
    };
    let name = words.get_str("name").unwrap_or("");
    match rename_by_threads(threads, rt.alloc(), &files, file, position, name) {
        Ok(renaming) => end_rename(disk, words.get_flag("write"), &renaming),
        Err(fault) => {
            let mut output = Flagged::new(rt.stdout());
            let mut errors = Flagged::new(rt.stderr());
            refuse(
                rt.alloc(),
                disk.is_verbose,
                &files,
                fault,
                &mut output,
                &mut errors,
            )
        }
    }
}

/// Tells why the edited files cannot be written, and answers the status.
fn tell_unwritten(rt: &HostRuntime, error: &io::Error) -> u8 {
    if error.kind() == io::ErrorKind::OutOfMemory {
        return tell_fault(rt, RunFault::NoMemory);
    }
    tell_fault(rt, RunFault::Device)
}

/// Writes the edited files where that is asked for, prints what the rename comes to, and answers the status.
fn end_rename(disk: Disk<'_>, writes: bool, renaming: &Renaming) -> u8 {
    if writes && let Err(error) = write_files(disk, &renaming.edited) {
        return tell_unwritten(disk.rt, &error);
    }
    let mut output = Flagged::new(disk.rt.stdout());
    let mut errors = Flagged::new(disk.rt.stderr());
    print(
        &renaming.output,
        &renaming.error,
        renaming.status,
        &mut output,
        &mut errors,
    )
}

/// Does what the words say, and answers the status.
fn run<R: Threads + Wait + Sync>(threads: &R, rt: &HostRuntime, matches: &ArgMatches<'_>) -> u8 {
    match matches.subcommand() {
        Some(("check", words)) => check(threads, rt, words),
        Some(("exec", words)) => exec_files(rt, words),
        Some(("rename", words)) => rename_files(threads, rt, words),
        Some((_, words)) => serve(threads, rt, words),
        None => USAGE_STATUS,
    }
}

/// The words of the command line.
fn read_words(rt: &HostRuntime) -> io::Result<Vec<String>> {
    Ok(std::env::args(rt)?.collect(rt.alloc())?)
}

fn main(rt: HostRuntime) -> ExitCode {
    let status = match read_words(&rt) {
        Ok(words) => match parse_words(rt.alloc(), words.as_slice()) {
            Ok(matches) => run(&rt, &rt, &matches),
            Err(error) => explain(&rt, &error),
        },
        Err(error) => explain_unread(&rt, &error),
    };
    ExitCode::from(status)
}
