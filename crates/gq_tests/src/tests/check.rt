//! The check of files where a write fails, and of more files than may be given.
ghost use Rattle.std.specs.Prelude.{◌≡◌, false};

use gq_check::{File, Format, check_by_threads};
use gq_rpc::Sink;
use gq_text::OwnedText;
use std::alloc::Global;
use std::process::Abort;
use std::test::Fail;
use std::thread::Threads;

const S: &str = "type Query{x:Int f(a:Int):Int}";

/// So many writes as each sink needs.
const ENOUGH: (usize, usize) = (1_000, 1_000);

/// A sink that takes at most `most` bytes a write, and fails after `writes` of them.
#[derive(Drop)]
struct Narrow {
    bytes: Vec<u8>,
    most: usize,
    writes: usize,
    failed: bool,
}

impl Sink for Narrow {
    ghost use Rattle.std.specs.Prelude.{None};

    ghost held = { λ _. None };

    ghost failed = { λ s. s.failed };

    fn write(&mut self, bytes: &[u8]) -> Option<usize> {
        let count = self.most.min(bytes.len());
        if count > 0 && self.writes > 0 && self.bytes.extend_from_slice(&bytes[..count]).is_ok() {
            self.writes -= 1;
            return Some(count);
        }
        self.failed = true;
        None
    }
}

/// A sink that takes so many writes of 6 bytes.
fn sink_of(alloc: Global, writes: usize) -> Narrow
    ensures { result.failed ≡ false }
{
    Narrow {
        bytes: Vec::new(alloc),
        most: 6,
        writes,
        failed: false,
    }
}

fn file(alloc: Global, name: &str, text: &str) -> Result<File, Fail> {
    Ok(File {
        name: OwnedText::from_str(alloc, name)?,
        bytes: Some(Vec::from_slice(alloc, text.as_bytes())?),
        why: OwnedText::from_str(alloc, "")?,
    })
}

fn absent(alloc: Global, name: &str) -> Result<File, Fail> {
    Ok(File {
        name: OwnedText::from_str(alloc, name)?,
        bytes: None,
        why: OwnedText::from_str(alloc, "no such file")?,
    })
}

/// The files of a row, parted by ` ;; `: the name of each and, behind `: `, its text. One with no `: ` is absent.
fn files(alloc: Global, row: &str) -> Result<Vec<File>, Fail> {
    let mut all = Vec::new(alloc);
    for one in row.split(" ;; ") {
        match one.split_once(": ") {
            Some((name, text)) => all.push(file(alloc, name, text)?)?,
            None => all.push(absent(alloc, one)?)?,
        }
    }
    Ok(all)
}

/// What is written of files to a sink that takes `writes.0` writes, then to one that takes `writes.1`, and the status.
fn written(
    alloc: Global,
    rt: &(impl Threads + Sync),
    files: Vec<File>,
    writes: (usize, usize),
) -> Result<String, Fail> {
    let mut out = sink_of(alloc, writes.0);
    let mut err = sink_of(alloc, writes.1);
    let status = check_by_threads(rt, alloc, Format::Text, false, files, &mut out, &mut err);
    let mut all = String::from_utf8(out.bytes).map_err(|_| "no text")?;
    all.push_str(str::from_utf8(&err.bytes).map_err(|_| "no text")?)?;
    write!(all, "{status}")?;
    Ok(all)
}

/// Each row is files and, behind `=>`, what is written of them to sinks that take so many writes. A `⏎` stands for the end of a line.
fn assert_written(
    alloc: Global,
    rt: &(impl Abort + Threads + Sync),
    writes: (usize, usize),
    rows: &str,
) -> Result<(), Fail> {
    for row in rows.trim().lines() {
        let (given, want) = row.split_once("=>").unwrap_or((row, "no arrow"));
        let files = files(alloc, given.trim())?;
        let all = written(alloc, rt, files, writes)?;
        let want = want.trim().replace(alloc, "⏎", "\n")?;
        assert_eq!(rt; all.as_str(), want.as_str(), "{row}");
    }
    Ok(())
}

/// So many files, as a row writes them: the type system, and then documents with nothing to tell.
fn many_files(alloc: Global, count: usize) -> Result<String, Fail> {
    let mut files = format!(in alloc; "s.graphql: {S}")?;
    for number in 1..count {
        let one = format!(in alloc; " ;; q{number}.graphql: #")?;
        files.push_str(one.as_str())?;
    }
    Ok(files)
}

#[test]
fn too_many_names_come_before_all_else(rt: HostRuntime) -> Result<(), Fail> {
    let alloc = rt.alloc();
    let many = many_files(alloc, 4_096)?;
    let rows = format!(in alloc;
        "{} ;; q1.graphql => ok⏎0\n{} ;; q1.graphql ;; q4096.graphql => gqls: TooMany⏎3",
        many.as_str(),
        many.as_str()
    )?;
    assert_written(alloc, &rt, ENOUGH, rows.as_str())
}

#[test]
fn a_sink_that_fails_is_told_on_the_other(rt: HostRuntime) -> Result<(), Fail> {
    let alloc = rt.alloc();
    let out_fails = "
        s.graphql: type Query{x:Int f(a:Int):Int} ;; q.graphql: {y} => q.graphql:1:gqls: Device⏎3
    ";
    assert_written(alloc, &rt, (2, 9), out_fails)?;
    let both_fail = "
        s.graphql: type Query{x:Int f(a:Int):Int} ;; q.graphql: {y} => gqls: 3
    ";
    assert_written(alloc, &rt, (0, 1), both_fail)?;
    let err_fails = "q.graphql => 3";
    assert_written(alloc, &rt, (9, 0), err_fails)
}
