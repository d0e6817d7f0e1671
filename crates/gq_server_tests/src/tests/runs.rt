//! Runs of the server where a device fails or a growth is refused.
ghost use Rattle.std.specs.Prelude.{◌<◌};

use gq_crew::{Ended, NoFiles, RunFault, run_one};
use gq_rpc::{Flagged, FrameFault, Reading, Sink, Source};
use std::alloc::Global;
use std::cell::Cell;
use std::process::Abort;
use std::test::Fail;

const INITIALIZE: &str =
    r#"{"jsonrpc":"2.0","id":1,"method":"initialize","params":{"processId":null,"rootUri":null,"capabilities":{"workspace":{"workspaceEdit":{"documentChanges":true}}}}}"#;

const OPEN_S: &str =
    r#"{"jsonrpc":"2.0","method":"textDocument/didOpen","params":{"textDocument":{"languageId":"graphql","text":"type Query{x:Int}","uri":"file:///s.graphql","version":1}}}"#;

const OPEN_Q: &str =
    r#"{"jsonrpc":"2.0","method":"textDocument/didOpen","params":{"textDocument":{"languageId":"graphql","text":"query Q{...A} fragment A on Query{x}","uri":"file:///q.graphql","version":1}}}"#;

const RENAME: &str =
    r#"{"jsonrpc":"2.0","id":2,"method":"textDocument/rename","params":{"textDocument":{"uri":"file:///q.graphql"},"position":{"line":0,"character":11},"newName":"B"}}"#;

const SHUTDOWN: &str = r#"{"jsonrpc":"2.0","id":3,"method":"shutdown"}"#;

const EXIT: &str = r#"{"jsonrpc":"2.0","method":"exit"}"#;

const INITIALIZED: &str =
    "Content-Length: 152\r\n\r\n{\"id\":1,\"jsonrpc\":\"2.0\",\"result\":{\"capabilities\":{\"renameProvider\":true,\"textDocumentSync\":{\"change\":2,\"openClose\":true}},\"serverInfo\":{\"name\":\"gqls\"}}}";

const RENAMED: &str =
    "Content-Length: 306\r\n\r\n{\"id\":2,\"jsonrpc\":\"2.0\",\"result\":{\"documentChanges\":[{\"edits\":[{\"newText\":\"B\",\"range\":{\"end\":{\"character\":12,\"line\":0},\"start\":{\"character\":11,\"line\":0}}},{\"newText\":\"B\",\"range\":{\"end\":{\"character\":24,\"line\":0},\"start\":{\"character\":23,\"line\":0}}}],\"textDocument\":{\"uri\":\"file:///q.graphql\",\"version\":1}}]}}";

const NO_MEMORY: &str =
    "Content-Length: 72\r\n\r\n{\"error\":{\"code\":-32803,\"message\":\"12 NoMemory\"},\"id\":2,\"jsonrpc\":\"2.0\"}";

const SHUT_DOWN: &str = "Content-Length: 38\r\n\r\n{\"id\":3,\"jsonrpc\":\"2.0\",\"result\":null}";

/// A source that gives at most `most` bytes a read, and after the last tells the end, or fails.
#[derive(Drop)]
struct Pieces<'a> {
    rest: &'a [u8],
    most: usize,
    fails: bool,
    failed: bool,
    ended: bool,
}

impl<'a> Source for Pieces<'a> {
    ghost use Rattle.std.specs.Prelude.{None};

    ghost left = { λ _. None };

    ghost failed = { λ s. s.failed };

    ghost ended = { λ s. s.ended };

    fn read(&mut self, buffer: &mut [u8]) -> Reading {
        let count = self.most.min(self.rest.len()).min(buffer.len());
        if count > 0 {
            let (piece, rest) = self.rest.split_at(count);
            buffer[..count].copy_from_slice(piece);
            self.rest = rest;
            return Reading::Bytes(count);
        }
        if self.fails {
            self.failed = true;
            return Reading::Failed;
        }
        self.ended = true;
        Reading::End
    }
}

/// A sink that takes at most `most` bytes a write, and fails after `writes` of them.
#[derive(Drop)]
struct Narrow {
    bytes: Vec<u8>,
    most: usize,
    writes: usize,
    failed: bool,
}

impl Sink for Narrow {
    ghost use Rattle.std.specs.Prelude.{None};

    ghost held = { λ _. None };

    ghost failed = { λ s. s.failed };

    fn write(&mut self, bytes: &[u8]) -> Option<usize> {
        let count = self.most.min(bytes.len());
        if count > 0 && self.writes > 0 && self.bytes.extend_from_slice(&bytes[..count]).is_ok() {
            self.writes -= 1;
            return Some(count);
        }
        self.failed = true;
        None
    }
}

/// The bodies, each in its frame.
fn stream(alloc: Global, bodies: &[&str]) -> Result<String, Fail> {
    let mut text = String::new(alloc);
    for body in bodies {
        write!(text, "Content-Length: {}\r\n\r\n{body}", body.len())?;
    }
    Ok(text)
}

/// The bodies of a session that opens two documents, asks for a rename and is shut down.
const SESSION: [&str; 6] = [INITIALIZE, OPEN_S, OPEN_Q, RENAME, SHUTDOWN, EXIT];

/// What is written to it.
const REPLIES: [&str; 3] = [INITIALIZED, RENAMED, SHUT_DOWN];

/// The texts, one after another.
fn joined(alloc: Global, texts: &[&str]) -> Result<String, Fail> {
    let mut joined = String::new(alloc);
    for text in texts {
        joined.push_str(text)?;
    }
    Ok(joined)
}

/// A run over the input, where each read gives at most `most` bytes, and the last one fails if `fails`: what it writes, and
/// how it ends.
fn run(alloc: Global, input: &[u8], most: usize, fails: bool) -> (Vec<u8>, Ended) {
    let mut source = Pieces {
        rest: input,
        most,
        fails,
        failed: false,
        ended: false,
    };
    let mut sink = Flagged::new(Vec::new(alloc));
    let ended = run_one(alloc, &mut source, &mut sink, &mut NoFiles);
    (sink.inner, ended)
}

/// The same, printed: what it writes, the status, and the fault where there is one.
fn ran(alloc: Global, input: &[u8], most: usize, fails: bool) -> Result<String, Fail> {
    let (written, Ended { status, fault }) = run(alloc, input, most, fails);
    let written = String::from_utf8(written)?;
    match fault {
        None => Ok(format!(in alloc; "{written}{status}")?),
        Some(fault) => Ok(format!(in alloc; "{written}{status}{fault:?}")?),
    }
}

fn stopped(status: u8) -> Ended {
    Ended {
        status,
        fault: None,
    }
}

fn failed(fault: RunFault) -> Ended {
    Ended {
        status: 3,
        fault: Some(fault),
    }
}

#[test]
fn faults_are_printed_as_their_names(rt: HostRuntime) -> Result<(), Fail> {
    for (fault, name) in [
        (RunFault::Frame(FrameFault::BadHeader), "BadHeader"),
        (RunFault::Frame(FrameFault::NoLength), "NoLength"),
        (RunFault::Frame(FrameFault::TooLong), "TooLong"),
        (RunFault::Frame(FrameFault::Truncated), "Truncated"),
        (RunFault::Frame(FrameFault::NoMemory), "NoMemory"),
        (RunFault::Frame(FrameFault::Failed), "Failed"),
        (RunFault::Device, "Device"),
        (RunFault::TooDeep, "TooDeep"),
        (RunFault::TooMany, "TooMany"),
        (RunFault::NoMemory, "NoMemory"),
    ] {
        let printed = format!(in rt.alloc(); "{fault}")?;
        assert_eq!(rt; printed.as_str(), name);
    }
    Ok(())
}

/// The frames of the bodies that are whole in the first `count` bytes of the session, and behind them the end.
fn replies_to_front(alloc: Global, count: usize, end: &str) -> Result<String, Fail> {
    let mut text = match count {
        0..184 => joined(alloc, &[])?,
        184..762 => joined(alloc, &[INITIALIZED])?,
        762..828 => joined(alloc, &[INITIALIZED, RENAMED])?,
        _ => joined(alloc, &REPLIES)?,
    };
    text.push_str(end)?;
    Ok(text)
}

#[test]
fn a_source_that_fails_is_told(rt: HostRuntime) -> Result<(), Fail> {
    let alloc = rt.alloc();
    let input = stream(alloc, &SESSION)?;
    for count in 0..input.len() {
        let told = ran(alloc, &input.as_bytes()[..count], 50, true)?;
        let want = replies_to_front(alloc, count, "3Device")?;
        assert_eq!(rt; told.as_str(), want.as_str(), "after {count} bytes");
    }
    Ok(())
}

#[test]
fn a_sink_that_fails_has_a_front(rt: HostRuntime) -> Result<(), Fail> {
    let alloc = rt.alloc();
    let input = stream(alloc, &SESSION)?;
    let all = joined(alloc, &REPLIES)?;
    for (most, enough) in [(10_000, 3), (1, 564)] {
        for writes in 0..=enough {
            let mut source = Flagged::new(input.as_bytes());
            let mut sink = Narrow {
                bytes: Vec::new(alloc),
                most,
                writes,
                failed: false,
            };
            let ended = run_one(alloc, &mut source, &mut sink, &mut NoFiles);
            let starts = all.as_bytes().starts_with(&sink.bytes);
            let is_long = writes < enough || sink.bytes.len() == all.len();
            let end = if writes < enough {
                failed(RunFault::Device)
            } else {
                stopped(0)
            };
            assert_eq!(rt;
                (starts, is_long, ended),
                (true, true, end),
                "{writes} writes of {most}"
            );
        }
    }
    Ok(())
}

/// Whether the bytes are a front of these texts, one after another.
fn is_front(bytes: &[u8], texts: &[&str; 3]) -> bool {
    let mut rest = bytes;
    for text in texts {
        let count = rest.len().min(text.len());
        if rest[..count] != text.as_bytes()[..count] {
            return false;
        }
        rest = &rest[count..];
    }
    rest.is_empty()
}

/// Whatever growth is refused: what is written is a front of the replies, or of the replies with the rename refused; no
/// document is lost, and a run that does not come to its end says why.
#[test]
fn a_refused_growth_is_told(rt: HostRuntime) -> Result<(), Fail> {
    let input = stream(rt.alloc(), &SESSION)?;
    let (written, ended) = run(rt.alloc(), input.as_bytes(), usize::MAX, false);
    let ample = is_front(&written, &REPLIES);
    let refused = is_front(&written, &[INITIALIZED, NO_MEMORY, SHUT_DOWN]);
    let is_told = match ended.fault {
        None => ended.status == 0 && written.as_slice().ends_with(SHUT_DOWN.as_bytes()),
        Some(fault) => ended.status == 3 && fault != RunFault::Frame(FrameFault::Failed),
    };
    assert!(rt; (ample || refused) && is_told);
    Ok(())
}

/// A message of a client, and how much it wants to be written before.
#[derive(Drop)]
struct Turn {
    frame: String,
    after: usize,
}

/// A client that waits: a read gives one message, and only once the replies to those before it are written; else it fails.
#[derive(Drop)]
struct Waiting<'a> {
    turns: &'a [Turn],
    next: usize,
    written: &'a Cell<usize>,
    failed: bool,
    ended: bool,
}

impl<'a> Source for Waiting<'a> {
    ghost use Rattle.std.specs.Prelude.{None};

    ghost left = { λ _. None };

    ghost failed = { λ s. s.failed };

    ghost ended = { λ s. s.ended };

    fn read(&mut self, buffer: &mut [u8]) -> Reading {
        let Some(turn) = self.turns.get(self.next) else {
            self.ended = true;
            return Reading::End;
        };
        let count = turn.frame.len();
        if self.written.get() < turn.after || count == 0 || count > buffer.len() {
            self.failed = true;
            return Reading::Failed;
        }
        buffer[..count].copy_from_slice(turn.frame.as_bytes());
        self.next = self.next.saturating_add(1);
        Reading::Bytes(count)
    }
}

/// A sink that shows how much was written.
#[derive(Drop)]
struct Counted<'a> {
    bytes: Vec<u8>,
    written: &'a Cell<usize>,
    failed: bool,
}

impl<'a> Sink for Counted<'a> {
    ghost use Rattle.std.specs.Prelude.{None};

    ghost held = { λ _. None };

    ghost failed = { λ s. s.failed };

    fn write(&mut self, bytes: &[u8]) -> Option<usize> {
        if self.bytes.extend_from_slice(bytes).is_err() {
            self.failed = true;
            return None;
        }
        self.written.set(self.bytes.len());
        Some(bytes.len())
    }
}

/// The messages of the session, each with its reply.
const ANSWERED: [(&str, &str); 6] = [
    (INITIALIZE, INITIALIZED),
    (OPEN_S, ""),
    (OPEN_Q, ""),
    (RENAME, RENAMED),
    (SHUTDOWN, SHUT_DOWN),
    (EXIT, ""),
];

/// The messages of the session, each after the replies to those before it.
fn turns(alloc: Global) -> Result<Vec<Turn>, Fail> {
    let mut turns = Vec::new(alloc);
    let mut after: usize = 0;
    for (body, reply) in ANSWERED {
        let frame = stream(alloc, &[body])?;
        turns.push(Turn { frame, after })?;
        after = after.saturating_add(reply.len());
    }
    Ok(turns)
}

/// A body that read all that it can before it writes would wait for ever for such a client, which here fails.
#[test]
fn a_message_is_answered_before_the_next_is_read(rt: HostRuntime) -> Result<(), Fail> {
    let alloc = rt.alloc();
    let turns = turns(alloc)?;
    let written = Cell::new(0);
    let mut source = Waiting {
        turns: &turns,
        next: 0,
        written: &written,
        failed: false,
        ended: false,
    };
    let mut sink = Counted {
        bytes: Vec::new(alloc),
        written: &written,
        failed: false,
    };
    let ended = run_one(alloc, &mut source, &mut sink, &mut NoFiles);
    let all = joined(alloc, &REPLIES)?;
    assert_eq!(rt; ended, stopped(0));
    assert_eq!(rt; sink.bytes.as_slice(), all.as_bytes());
    Ok(())
}
