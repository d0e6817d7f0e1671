//! Frames in a stream that comes in pieces, and the frame of a body (LSP 3.17, base protocol).
ghost use Rattle.std.specs.Prelude.{◌≡◌, ◌≤◌, ◌++◌, [], ◌∷◌, ℕ, List, None, Some, Err, drop, length, OnErr, OnOk, IfSome, IfOk};
ghost use Rattle.gq_rpc.specs.Frames.{Reads, Stops, Feeds, FeedsVec, end_of, ended, contents, frame};

use crate::header::{FrameFault, Scan, scan_front, skip};
use std::alloc::{AllocError, Global};
use std::marker::Model;

/// Adds a copy of a body.
fn add_body(alloc: Global, out: &mut Vec<Vec<u8>>, body: &[u8]) -> Result<(), AllocError>
    ensures ok { OnOk result (contents out.new.items ≡ contents out.old.items ++ body.now ∷ []) }
    ensures err { OnErr result (contents out.new.items ≡ contents out.old.items) }
{
    out.push(Vec::from_slice(alloc, body)?)?;
    Ok(())
}

/// Adds the bodies of the whole frames at the front of a text, and answers how far they reach.
fn cut_frames(alloc: Global, text: &[u8], out: &mut Vec<Vec<u8>>) -> (usize, Result<(), FrameFault>)
    ensures within { result.0 ≤ length text.now }
    ensures reads { Reads text.now (contents out.old.items) (contents out.new.items) (drop result.0 text.now) }
    ensures stops { Stops result.1 (drop result.0 text.now) }
{
    let mut at = 0;
    'frames: loop {
        let rest = skip(text, at);
        match scan_front(rest) {
            Scan::Partial => return (at, Ok(())),
            Scan::Bad(fault) => return (at, Err(fault)),
            Scan::Whole(start, end) => {
                match add_body(alloc, out, &rest[start..end]) {
                    Ok(()) => at += end,
                    Err(_) => return (at, Err(FrameFault::NoMemory)),
                }
            }
        }
    }
}

/// Takes frames off the front of a stream that comes in pieces. Contracts see the bytes that it
/// holds, which are less than a frame, or nothing once it has failed.
#[derive(Drop)]
pub struct Framer {
    held: Vec<u8>,
    failed: bool,
}

impl Model for Framer {
    ghost use Rattle.std.specs.Prelude.{List, ℕ, Option, Some, None, if◌then◌else◌};

    ghost Value = { Option (List ℕ) };

    ghost view = { λ f. if f.failed then None else Some f.held.items };
}

/// What is left of held bytes and a piece when their frames are taken off, and why it stopped.
fn take_piece(
    alloc: Global,
    held: &mut Vec<u8>,
    piece: &[u8],
    out: &mut Vec<Vec<u8>>,
) -> Result<(), FrameFault>
    ensures { FeedsVec held.old.items piece.now (contents out.old.items) (contents out.new.items) result held.new.items }
{
    if held.extend_from_slice(piece).is_err() {
        return Err(FrameFault::NoMemory);
    }
    let (at, answer) = cut_frames(alloc, held, out);
    answer?;
    if at > 0 {
        match Vec::from_slice(alloc, skip(held, at)) {
            Ok(rest) => *held = rest,
            Err(_) => return Err(FrameFault::NoMemory),
        }
    }
    Ok(())
}

impl Framer {
    pub fn new(alloc: Global) -> Framer
        ensures { result ≡ Some [] }
    {
        Framer {
            held: Vec::new(alloc),
            failed: false,
        }
    }

    /// Takes the next piece of the stream, and adds the bodies that are complete before any fault.
    pub fn feed(
        &mut self,
        alloc: Global,
        piece: &[u8],
        out: &mut Vec<Vec<u8>>,
    ) -> Result<(), FrameFault>
        ensures fed { IfSome self.old (λ held. Feeds held piece.now (contents out.old.items) (contents out.new.items) result self.new) }
        ensures failed { self.old ≡ None → (result ≡ Err FrameFault.Failed) × (self.new ≡ None) × (contents out.new.items ≡ contents out.old.items) }
    {
        if self.failed {
            return Err(FrameFault::Failed);
        }
        let answer = take_piece(alloc, &mut self.held, piece, out);
        self.failed = answer.is_err();
        answer
    }

    /// Whether the input may end here. A framer that holds less than a frame has failed by it. It takes no memory.
    pub fn end(&mut self) -> Result<(), FrameFault>
        ensures answer { result ≡ end_of self.old }
        ensures after { self.new ≡ ended self.old }
    {
        if self.failed {
            return Err(FrameFault::Failed);
        }
        if self.held.is_empty() {
            return Ok(());
        }
        self.failed = true;
        Err(FrameFault::Truncated)
    }
}

/// The frame of a body.
pub(crate) fn framed(alloc: Global, body: &[u8]) -> Result<Vec<u8>, AllocError>
    ensures { IfOk result (λ bytes. bytes.items ≡ frame body.now) }
{
    let head = format!(in alloc; "Content-Length: {}\r\n\r\n", body.len())?;
    let mut out = Vec::with_capacity(alloc, head.len() + body.len())?;
    out.extend_from_slice(head.as_bytes())?;
    out.extend_from_slice(body)?;
    Ok(out)
}
