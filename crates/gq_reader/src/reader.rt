//! The messages of an input, one after another.
ghost use Rattle.std.specs.Prelude.{◌≡◌, [], Some, None, false, IfSome};
ghost use Rattle.gq_rpc.specs.Frames.{contents};
ghost use Rattle.std.specs.Option.{option_and_then, option_or};
ghost use Rattle.gq_reader.specs.Reader.{TakesFrames, end_in, seen, Ready};
ghost use Rattle.gq_reader.specs.Coming.{boxed, Comes};

use crate::fault::RunFault;
use crate::files::Files;
use crate::loads::Loads;
use gq_events::Event;
use gq_rpc::{Framer, Incoming, Reading, Source, read_message};
use std::alloc::Global;
use std::collections::VecDeque;

/// How many bytes are read at once, at most.
const BUFFER_LEN: usize = 16_384;

/// Why no more is read.
#[derive(Clone, Copy, Debug, PartialEq, Eq)]
pub enum NoMore {
    /// The input has ended behind a whole frame, or before any.
    End,
    Fault(RunFault),
}

/// The bodies that a piece completes, and why no more is read where no frame follows.
fn take_frames(
    alloc: Global,
    framer: &mut Framer,
    piece: &[u8],
) -> (VecDeque<Vec<u8>>, Option<NoMore>)
    ensures { IfSome framer.old (λ held. TakesFrames held piece.now framer.new (contents result.0.items) result.1) }
{
    let mut bodies = Vec::new(alloc);
    let no_more = match framer.feed(alloc, piece, &mut bodies) {
        Ok(()) => None,
        Err(fault) => Some(NoMore::Fault(RunFault::Frame(fault))),
    };
    (VecDeque::from_vec(bodies), no_more)
}

/// Why no more is read where the source ends.
fn find_end(framer: &mut Framer) -> NoMore
    ensures { result ≡ end_in framer.old }
{
    match framer.end() {
        Ok(()) => NoMore::End,
        Err(fault) => NoMore::Fault(RunFault::Frame(fault)),
    }
}

/// What was read of an input, and was not given yet.
#[derive(Drop)]
pub struct Pending {
    alloc: Global,
    buffer: [u8; BUFFER_LEN],
    framer: Framer,
    bodies: VecDeque<Vec<u8>>,
    /// Why no more is read. The bodies before it are given first.
    no_more: Option<NoMore>,
    /// The fault at which it ended.
    told: Option<RunFault>,
}

impl Pending {
    ghost use Rattle.gq_reader.specs.Reader.{seen, Holds, Ready, ReadsOnce, Fills, IsFull, Gives, fault_of};

    /// Nothing was read. It takes no memory.
    pub fn new(alloc: Global) -> Pending
        ensures framer { result.framer ≡ Some [] }
        ensures bodies { result.bodies.items ≡ [] }
        ensures no_more { result.no_more ≡ None }
        ensures told { result.told ≡ None }
    {
        Pending {
            alloc,
            buffer: [0u8; BUFFER_LEN],
            framer: Framer::new(alloc),
            bodies: VecDeque::new(alloc),
            no_more: None,
            told: None,
        }
    }

    /// The fault at which it ended.
    pub fn told(&self) -> Option<RunFault>
        ensures { result ≡ self.now.told }
    {
        self.told
    }

    /// Reads once, where it has no body.
    fn read_once<S: Source>(&mut self, input: &mut S)
        requires ready { Holds (seen S.left S.ended S.failed input.old self.old) }
        requires empty { self.old.bodies.items ≡ [] }
        requires going { self.old.no_more ≡ None }
        ensures { ReadsOnce (seen S.left S.ended S.failed input.old self.old) (seen S.left S.ended S.failed input.new self.new) }
    {
        match input.read(&mut self.buffer) {
            Reading::Bytes(count) => {
                let (bodies, no_more) = take_frames(
                    self.alloc,
                    &mut self.framer,
                    &self.buffer[..count],
                );
                self.bodies = bodies;
                self.no_more = no_more;
            }
            Reading::End => self.no_more = Some(find_end(&mut self.framer)),
            Reading::Failed => self.no_more = Some(NoMore::Fault(RunFault::Device)),
        }
    }

    /// Reads until it has a body, or there is no more to read.
    fn fill<S: Source>(&mut self, input: &mut S)
        requires ready { Ready (seen S.left S.ended S.failed input.old self.old) }
        ensures fills { Fills (seen S.left S.ended S.failed input.old self.old) (seen S.left S.ended S.failed input.new self.new) }
        ensures full { IsFull (seen S.left S.ended S.failed input.new self.new) }
    {
        'reads: while self.bodies.is_empty() && self.no_more.is_none() {
            self.read_once(input);
        }
    }

    /// Tells why no more is given.
    fn tell(&mut self)
        ensures told { self.new.told ≡ option_and_then fault_of self.old.no_more }
        ensures framer { self.new.framer ≡ self.old.framer }
        ensures bodies { self.new.bodies ≡ self.old.bodies }
        ensures no_more { self.new.no_more ≡ self.old.no_more }
    {
        self.told = match self.no_more {
            Some(NoMore::Fault(fault)) => Some(fault),
            _ => None,
        };
    }

    /// The next message; at the end, at a fault and where memory is refused none.
    pub fn give<S: Source>(&mut self, input: &mut S) -> Option<Incoming>
        requires ready { Ready (seen S.left S.ended S.failed input.old self.old) }
        ensures ready { IfSome result (λ _. Ready (seen S.left S.ended S.failed input.new self.new)) }
        ensures gives { Gives (seen S.left S.ended S.failed input.old self.old) result (seen S.left S.ended S.failed input.new self.new) }
    {
        self.fill(input);
        match self.bodies.pop_front() {
            Some(body) => match read_message(self.alloc, &body) {
                Ok(message) => Some(message),
                Err(_) => {
                    self.told = Some(RunFault::NoMemory);
                    None
                }
            },
            None => {
                self.tell();
                None
            }
        }
    }
}

/// What comes next: a file that is to be loaded, or else a message. At the end, at a fault and where memory is refused it is
/// none.
fn give_next<S: Source, F: Files>(
    input: &mut S,
    files: &mut F,
    pending: &mut Pending,
    loads: &mut Loads,
) -> Option<Event>
    requires ready { Ready (seen S.left S.ended S.failed input.old pending.old) }
    ensures ready { IfSome result (λ _. Ready (seen S.left S.ended S.failed input.new pending.new)) }
    ensures gives { Comes F.reads F.failed F.has
        (boxed (seen S.left S.ended S.failed input.old pending.old) files.old loads.old) result
        (boxed (seen S.left S.ended S.failed input.new pending.new) files.new loads.new) }
{
    if let Some(key) = loads.next_key() {
        return loads.give(files, key).map(Event::Load);
    }
    let message = pending.give(input)?;
    if loads.follow(files, &message) {
        return Some(Event::Message(message));
    }
    None
}

/// What comes to a desk, one after another: the files that are to be loaded, and then the messages of an input, up to its end
/// or a fault. Behind a message that closes a document of the folder its file is loaded.
#[derive(Drop)]
pub struct Reader<'i, 'f, 'p, S, F> {
    pub input: &'i mut S,
    pub files: &'f mut F,
    pub pending: &'p mut Pending,
    pub loads: &'p mut Loads,
}

impl<S, F> Reader<'_, '_, '_, S, F> {
    /// The fault at which it ended.
    pub fn told(&self) -> Option<RunFault>
        ensures { result ≡ option_or self.now.loads.now.told self.now.pending.now.told }
    {
        self.loads.told().or(self.pending.told())
    }
}

impl<S: Source, F: Files> Iterator for Reader<'_, '_, '_, S, F> {
    ghost use Rattle.gq_reader.specs.Reader.{seen_in, Ready};
    ghost use Rattle.gq_reader.specs.Coming.{Steps};

    type Item = Event;

    ghost can_next = { λ s. Ready (seen_in S.left S.ended S.failed s) };

    ghost next_gives = { Steps S.left S.ended S.failed F.reads F.failed F.has };

    fn next(&mut self) -> Option<Event> {
        give_next(self.input, self.files, self.pending, self.loads)
    }
}
