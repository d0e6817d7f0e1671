//! Runs with two workers, of which a gate holds one.

use gq_crew::{Ended, Gate, NoFiles, Ran, run};
use gq_rpc::{Reading, Sink, Source};
use std::alloc::Global;
use std::process::Abort;
use std::sync::Wait;
use std::sync::atomic::{AtomicU64, Ordering};
use std::test::Fail;
use std::thread;
use std::thread::Threads;
use std::time::{Clock, Duration};

const INITIALIZE: &str =
    r#"{"jsonrpc":"2.0","id":1,"method":"initialize","params":{"processId":null,"rootUri":null,"capabilities":{"workspace":{"workspaceEdit":{"documentChanges":true}}}}}"#;

const OPEN_S: &str =
    r#"{"jsonrpc":"2.0","method":"textDocument/didOpen","params":{"textDocument":{"languageId":"graphql","text":"type Query{x:Int}","uri":"file:///s.graphql","version":1}}}"#;

const OPEN_Q: &str =
    r#"{"jsonrpc":"2.0","method":"textDocument/didOpen","params":{"textDocument":{"languageId":"graphql","text":"query Q{...A} fragment A on Query{x}","uri":"file:///q.graphql","version":1}}}"#;

const CHANGE_S: &str =
    r#"{"jsonrpc":"2.0","method":"textDocument/didChange","params":{"textDocument":{"uri":"file:///s.graphql","version":2},"contentChanges":[{"text":"type Query{x:Int y:Int}"}]}}"#;

const RENAME_TO_B: &str =
    r#"{"jsonrpc":"2.0","id":2,"method":"textDocument/rename","params":{"textDocument":{"uri":"file:///q.graphql"},"position":{"line":0,"character":11},"newName":"B"}}"#;

const RENAME_TO_C: &str =
    r#"{"jsonrpc":"2.0","id":3,"method":"textDocument/rename","params":{"textDocument":{"uri":"file:///q.graphql"},"position":{"line":0,"character":11},"newName":"C"}}"#;

const SHUTDOWN: &str = r#"{"jsonrpc":"2.0","id":4,"method":"shutdown"}"#;

const EXIT: &str = r#"{"jsonrpc":"2.0","method":"exit"}"#;

const INITIALIZED_HEADER: &str = "Content-Length: 152\r\n\r\n";

const INITIALIZED: &str =
    r#"{"id":1,"jsonrpc":"2.0","result":{"capabilities":{"renameProvider":true,"#;

const INITIALIZED_REST: &str =
    r#""textDocumentSync":{"change":2,"openClose":true}},"serverInfo":{"name":"gqls"}}}"#;

const RENAMED_HEADER: &str = "Content-Length: 306\r\n\r\n";

const RENAMED_TO_B: &str =
    r#"{"id":2,"jsonrpc":"2.0","result":{"documentChanges":[{"edits":[{"newText":"B","range":{"end":{"character":12,"line":0},"start":{"character":11,"line":0}}},"#;

const RENAMED_TO_B_REST: &str =
    r#"{"newText":"B","range":{"end":{"character":24,"line":0},"start":{"character":23,"line":0}}}],"textDocument":{"uri":"file:///q.graphql","version":1}}]}}"#;

const RENAMED_TO_C: &str =
    r#"{"id":3,"jsonrpc":"2.0","result":{"documentChanges":[{"edits":[{"newText":"C","range":{"end":{"character":12,"line":0},"start":{"character":11,"line":0}}},"#;

const RENAMED_TO_C_REST: &str =
    r#"{"newText":"C","range":{"end":{"character":24,"line":0},"start":{"character":23,"line":0}}}],"textDocument":{"uri":"file:///q.graphql","version":1}}]}}"#;

const MODIFIED: &str =
    "Content-Length: 77\r\n\r\n{\"error\":{\"code\":-32801,\"message\":\"content modified\"},\"id\":2,\"jsonrpc\":\"2.0\"}";

const SHUT_DOWN: &str = "Content-Length: 38\r\n\r\n{\"id\":4,\"jsonrpc\":\"2.0\",\"result\":null}";

/// So many turns of a millisecond are waited for something, at most.
const TURNS: u64 = 10_000;

/// Waits until so many frames were taken. Answers whether they were.
fn wait_for<C: Clock>(clock: &C, taken: &AtomicU64, frames: u64) -> bool {
    for _ in 0..TURNS {
        if taken.load(Ordering::SeqCst) >= frames {
            return true;
        }
        thread::sleep(clock, Duration::from_millis(1));
    }
    false
}

/// A body, and how many frames are taken before it is given.
type Cue = (&'static str, u64);

/// Copies the frame of a body to the front of a buffer, and answers how long it is.
fn copy_frame(alloc: Global, body: &str, buffer: &mut [u8]) -> Option<usize> {
    let frame = format!(in alloc; "Content-Length: {}\r\n\r\n{body}", body.len()).ok()?;
    let bytes = frame.as_bytes();
    let front = buffer.get_mut(..bytes.len())?;
    front.copy_from_slice(bytes);
    Some(bytes.len())
}

/// A source that gives a frame a read, each on its cue, and then the end.
#[derive(Drop)]
struct Script<'s, C> {
    clock: &'s C,
    alloc: Global,
    taken: &'s AtomicU64,
    cues: &'s [Cue],
    next: usize,
    ended: bool,
    failed: bool,
}

impl<'s, C: Clock> Source for Script<'s, C> {
    ghost use Rattle.std.specs.Prelude.{None};

    ghost left = { λ _. None };

    ghost failed = { λ s. s.failed };

    ghost ended = { λ s. s.ended };

    fn read(&mut self, buffer: &mut [u8]) -> Reading {
        let Some(&(body, after)) = self.cues.get(self.next) else {
            self.ended = true;
            return Reading::End;
        };
        wait_for(self.clock, self.taken, after);
        self.next = self.next.saturating_add(1);
        match copy_frame(self.alloc, body, buffer) {
            Some(count) if count > 0 && count <= buffer.len() => Reading::Bytes(count),
            _ => {
                self.failed = true;
                Reading::Failed
            }
        }
    }
}

/// A sink that keeps what is written, and counts the frames.
#[derive(Drop)]
struct Frames<'s> {
    bytes: Vec<u8>,
    taken: &'s AtomicU64,
    failed: bool,
}

/// How many headers stand in bytes.
fn count_frames(bytes: &[u8]) -> u64 {
    let mut count = 0u64;
    for window in bytes.windows(16) {
        if window == b"Content-Length: ".as_slice() {
            count = count.saturating_add(1);
        }
    }
    count
}

impl<'s> Sink for Frames<'s> {
    ghost use Rattle.std.specs.Prelude.{None};

    ghost held = { λ _. None };

    ghost failed = { λ s. s.failed };

    fn write(&mut self, bytes: &[u8]) -> Option<usize> {
        if bytes.is_empty() || self.bytes.extend_from_slice(bytes).is_err() {
            self.failed = true;
            return None;
        }
        self.taken
            .store(count_frames(&self.bytes), Ordering::SeqCst);
        Some(bytes.len())
    }
}

/// A gate that holds the first job until so many frames were taken.
#[derive(Drop)]
struct Hold<'s, C> {
    clock: &'s C,
    taken: &'s AtomicU64,
    frames: u64,
    late: AtomicU64,
}

impl<'s, C: Clock> Gate for Hold<'s, C> {
    fn pass(&self, job: u64) {
        if job == 1 && !wait_for(self.clock, self.taken, self.frames) {
            self.late.store(1, Ordering::SeqCst);
        }
    }
}

/// A run with so many workers over what comes on these cues, where the first job is held until so many frames were taken: what
/// is written, how it ends, and whether the job was held for too long.
fn run_held<R: Threads + Wait + Clock + Sync>(
    rt: &R,
    alloc: Global,
    workers: u8,
    cues: &[Cue],
    frames: u64,
) -> (Vec<u8>, Ended, bool) {
    let taken = AtomicU64::new(0);
    let gate = Hold {
        clock: rt,
        taken: &taken,
        frames,
        late: AtomicU64::new(0),
    };
    let source = Script {
        clock: rt,
        alloc,
        taken: &taken,
        cues,
        next: 0,
        ended: false,
        failed: false,
    };
    let sink = Frames {
        bytes: Vec::new(alloc),
        taken: &taken,
        failed: false,
    };
    let Ran { ended, output, .. } = run(rt, alloc, workers, source, sink, &gate, NoFiles);
    (output.bytes, ended, gate.late.load(Ordering::SeqCst) == 1)
}

/// The end at `exit` behind `shutdown`.
const STOPPED: Ended = Ended {
    status: 0,
    fault: None,
};

/// The texts, one after another.
fn joined(alloc: Global, texts: &[&str]) -> Result<String, Fail> {
    let mut joined = String::new(alloc);
    for text in texts {
        joined.push_str(text)?;
    }
    Ok(joined)
}

/// Two questions are answered at once: the second one while the first is held.
#[test]
fn two_at_once(rt: HostRuntime) -> Result<(), Fail> {
    let cues = [
        (INITIALIZE, 0),
        (OPEN_S, 0),
        (OPEN_Q, 0),
        (RENAME_TO_B, 0),
        (RENAME_TO_C, 0),
        (SHUTDOWN, 3),
        (EXIT, 0),
    ];
    let wanted = joined(
        rt.alloc(),
        &[
            INITIALIZED_HEADER,
            INITIALIZED,
            INITIALIZED_REST,
            RENAMED_HEADER,
            RENAMED_TO_C,
            RENAMED_TO_C_REST,
            RENAMED_HEADER,
            RENAMED_TO_B,
            RENAMED_TO_B_REST,
            SHUT_DOWN,
        ],
    )?;
    for workers in [2u8, 8] {
        let (bytes, ended, late) = run_held(&rt, rt.alloc(), workers, &cues, 2);
        assert_eq!(rt; bytes.as_slice(), wanted.as_bytes());
        assert_eq!(rt; (ended, late), (STOPPED, false));
    }
    Ok(())
}

/// What a held worker made of a question is dropped where a change came first.
#[test]
fn held_then_changed(rt: HostRuntime) -> Result<(), Fail> {
    let cues = [
        (INITIALIZE, 0),
        (OPEN_S, 0),
        (OPEN_Q, 0),
        (RENAME_TO_B, 0),
        (CHANGE_S, 0),
        (RENAME_TO_C, 2),
        (SHUTDOWN, 3),
        (EXIT, 0),
    ];
    let wanted = joined(
        rt.alloc(),
        &[
            INITIALIZED_HEADER,
            INITIALIZED,
            INITIALIZED_REST,
            MODIFIED,
            RENAMED_HEADER,
            RENAMED_TO_C,
            RENAMED_TO_C_REST,
            SHUT_DOWN,
        ],
    )?;
    for workers in [1u8, 2, 8] {
        let (bytes, ended, late) = run_held(&rt, rt.alloc(), workers, &cues, 2);
        assert_eq!(rt; bytes.as_slice(), wanted.as_bytes());
        assert_eq!(rt; (ended, late), (STOPPED, false));
    }
    Ok(())
}
