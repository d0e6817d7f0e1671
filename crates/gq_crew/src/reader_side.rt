//! What the reader's thread does: it posts what comes, up to `exit`, the end of the input or a fault.
ghost use Rattle.std.specs.Prelude.{◌≡◌, ◌++◌, ◌∷◌, [], ℕ, List, None, IfSome, false, true};
ghost use Rattle.gq_reader.specs.Reader.{seen_in, unread, Ready};
ghost use Rattle.gq_reader.specs.Coming.{Steps};
ghost use Rattle.gq_crew.specs.Helping.Posting.{PostsAll, PostsOne, end_by};
ghost use Rattle.gq_crew.specs.Helping.Sides.{GivenReader, ReaderComes};
ghost use Rattle.gq_crew.specs.Crew.{Posts, is_exit};
ghost use Rattle.gq_crew.specs.Runs.{source_after, files_after};
ghost use Rattle.gq_workers.specs.Ends.{posted, reader_on};

use gq_board::Room;
use gq_desk::{Event, InputEnd};
use gq_reader::{Files, Loads, Pending, Reader, RunFault};
use gq_rpc::{Incoming, Notification, Source};
use gq_text::OwnedText;
use gq_workers::ReaderEnd;
use std::alloc::Global;
use std::sync::Wait;

/// So many events are posted, at most.
const EVENTS_MAX: u64 = 1 << 60;

/// Why posting has ended.
#[derive(Clone, Copy, Debug, PartialEq, Eq)]
pub enum Posting {
    /// `exit` was posted, or nobody takes more.
    Stopped,
    /// Nothing more comes.
    Ended,
    /// So many were posted as there may be.
    TooMany,
}

/// Whether an event is the message `exit`.
fn is_exit(event: &Event) -> bool
    ensures { result ≡ is_exit event.now }
{
    matches!(
        event,
        Event::Message(Incoming::Notification(Notification::Exit))
    )
}

/// How the input ended, by the fault that was told.
fn end_by(told: Option<RunFault>) -> InputEnd
    ensures { result ≡ end_by told }
{
    match told {
        Some(_) => InputEnd::Fault,
        None => InputEnd::Border,
    }
}

/// Posts an event, once. Answers whether it was taken.
fn post_once<J: Room, R: Wait>(rt: &R, end: &mut ReaderEnd<J>, event: Event) -> bool
    ensures on { reader_on end.new ≡ reader_on end.old }
    ensures posted { PostsOne event result (posted end.old) (posted end.new) }
{
    let Err(event) = end.post(rt, event) else {
        return true;
    };
    drop(event);
    false
}

/// Posts an event, and tries once more where that is refused. Answers whether it was taken.
fn post<J: Room, R: Wait>(rt: &R, end: &mut ReaderEnd<J>, event: Event) -> bool
    ensures on { reader_on end.new ≡ reader_on end.old }
    ensures posted { PostsOne event result (posted end.old) (posted end.new) }
{
    match end.post(rt, event) {
        Ok(()) => true,
        Err(event) => post_once(rt, end, event),
    }
}

/// The next of what comes, if anything does.
fn next_event<S: Source, F: Files>(reader: &mut Reader<'_, '_, '_, S, F>) -> Option<Event>
    requires ready { Ready (seen_in S.left S.ended S.failed reader.old) }
    ensures ready { IfSome result (λ _. Ready (seen_in S.left S.ended S.failed reader.new)) }
    ensures steps { Steps S.left S.ended S.failed F.reads F.failed F.has reader.old result reader.new }
{
    reader.next()
}

/// Posts what comes, one after another.
fn post_all<J: Room, S: Source, F: Files, R: Wait>(
    rt: &R,
    reader: &mut Reader<'_, '_, '_, S, F>,
    end: &mut ReaderEnd<J>,
) -> Posting
    requires ready { Ready (seen_in S.left S.ended S.failed reader.old) }
    ensures same_input { reader.new.input.ghost_name ≡ reader.old.input.ghost_name }
    ensures same_files { reader.new.files.ghost_name ≡ reader.old.files.ghost_name }
    ensures on { reader_on end.new ≡ reader_on end.old }
    ensures posts { PostsAll (Steps S.left S.ended S.failed F.reads F.failed F.has) reader.old (posted end.old) result reader.new (posted end.new) }
{
    for _posted in 0..EVENTS_MAX {
        let Some(event) = next_event(reader) else {
            return Posting::Ended;
        };
        let exits = is_exit(&event);
        if !post(rt, end, event) || exits {
            return Posting::Stopped;
        }
    }
    Posting::TooMany
}

/// The same, and then how it ended. Answers the fault at which it did.
fn post_to_end<J: Room, S: Source, F: Files, R: Wait>(
    rt: &R,
    reader: &mut Reader<'_, '_, '_, S, F>,
    end: &mut ReaderEnd<J>,
) -> Option<RunFault>
    requires unread { seen_in S.left S.ended S.failed reader.old ≡ unread (seen_in S.left S.ended S.failed reader.old).source }
    requires untold { reader.old.loads.now.told ≡ None }
    requires sound { S.failed reader.old.input.now ≡ false }
    requires whole { F.failed reader.old.files.now ≡ false }
    requires fresh { posted end.old ≡ [] }
    ensures same_input { reader.new.input.ghost_name ≡ reader.old.input.ghost_name }
    ensures same_files { reader.new.files.ghost_name ≡ reader.old.files.ghost_name }
    ensures on { reader_on end.new ≡ reader_on end.old }
    ensures posts { Posts F.reads (F.has reader.old.files.now) reader.old.files.now reader.old.loads.now.keys.items
        (files_after F.failed F.too_deep reader.new.files.now)
        (S.left reader.old.input.now) (seen_in S.left S.ended S.failed reader.new).source result (posted end.new) }
{
    match post_all(rt, reader, end) {
        Posting::Stopped => None,
        Posting::Ended => {
            let told = reader.told();
            post(rt, end, Event::End(end_by(told)));
            told
        }
        Posting::TooMany => {
            post(rt, end, Event::End(InputEnd::Fault));
            Some(RunFault::Device)
        }
    }
}

/// What the reader's thread owns: the input, the folder with the keys of its files, and its end of the inbox.
#[derive(Drop)]
pub struct ReaderSide<J: Room, S, F> {
    pub input: S,
    pub files: F,
    pub keys: Vec<OwnedText>,
    pub end: ReaderEnd<J>,
}

/// What it leaves, and the fault at which it ended.
#[derive(Drop)]
pub struct ReaderCame<J: Room, S, F> {
    pub input: S,
    pub files: F,
    pub end: ReaderEnd<J>,
    pub told: Option<RunFault>,
}

/// Posts the files of these keys, and then the messages of an input, and behind one that closes a document of the folder its
/// file. Answers the fault at which it ended.
fn read_and_post<J: Room, S: Source, F: Files, R: Wait>(
    rt: &R,
    alloc: Global,
    keys: Vec<OwnedText>,
    input: &mut S,
    files: &mut F,
    end: &mut ReaderEnd<J>,
) -> Option<RunFault>
    requires sound { S.failed input.old ≡ false }
    requires whole { F.failed files.old ≡ false }
    requires fresh { posted end.old ≡ [] }
    ensures on { reader_on end.new ≡ reader_on end.old }
    ensures posts { Posts F.reads (F.has files.old) files.old keys.items (files_after F.failed F.too_deep files.new)
        (S.left input.old) (source_after S.left S.ended S.failed input.new) result (posted end.new) }
{
    let mut pending = Pending::new(alloc);
    let mut loads = Loads::new(alloc, keys);
    let mut reader = Reader {
        input,
        files,
        pending: &mut pending,
        loads: &mut loads,
    };
    post_to_end(rt, &mut reader, end)
}

/// What the reader's thread does.
pub fn read_side<J: Room, S: Source, F: Files, R: Wait>(
    rt: &R,
    alloc: Global,
    side: ReaderSide<J, S, F>,
) -> ReaderCame<J, S, F>
    requires given { GivenReader S.failed F.failed side }
    ensures { ReaderComes F.reads F.has F.failed F.too_deep S.left S.ended S.failed side result }
{
    let ReaderSide {
        mut input,
        mut files,
        keys,
        mut end,
    } = side;
    let told = read_and_post(rt, alloc, keys, &mut input, &mut files, &mut end);
    ReaderCame {
        input,
        files,
        end,
        told,
    }
}
