//! Lists of events that drive a desk with workers: what is written, and what is handed on.
ghost use Rattle.std.specs.Prelude.{◌≡◌, ◌≤◌, ◌^◌, [], true, IfSome, IsErrOf};
ghost use Rattle.gq_desk.specs.Standing.{StandsFor};
ghost use Rattle.gq_edit.specs.Workspace.{AreTexts};

use gq_desk::laws::{new_desks_stand_for_none, numbers_stay_low};
use gq_desk::{Answer, Desk, Done, DriveFault, Event, Hands, HandsFault, Job, Task, drive};
use gq_kept::Kept;
use gq_parse::Piece;
use gq_project::{Doc, DocChange, Project};
use gq_rpc::{Flagged, Incoming, Request, encode, read_message};
use gq_text::text::TEXT_MAX;
use gq_text::{OwnedText, PositionEncoding};
use std::alloc::Global;
use std::sync::Arc;
use std::test::Fail;

const INITIALIZE: &str =
    r#"{"jsonrpc":"2.0","id":0,"method":"initialize","params":{"processId":null,"rootUri":null,"capabilities":{"workspace":{"workspaceEdit":{"documentChanges":true}}}}}"#;

const OPEN_S: &str =
    r#"{"jsonrpc":"2.0","method":"textDocument/didOpen","params":{"textDocument":{"languageId":"graphql","text":"type Query{x:Int}","uri":"file:///s","version":1}}}"#;

const OPEN_Q: &str =
    r#"{"jsonrpc":"2.0","method":"textDocument/didOpen","params":{"textDocument":{"languageId":"graphql","text":"{...A} fragment A on Query{x}","uri":"file:///q","version":1}}}"#;

const CHANGE_S: &str =
    r#"{"jsonrpc":"2.0","method":"textDocument/didChange","params":{"contentChanges":[{"text":"type Query{x:Int y:Int}"}],"textDocument":{"uri":"file:///s","version":2}}}"#;

const CLOSE_S: &str =
    r#"{"jsonrpc":"2.0","method":"textDocument/didClose","params":{"textDocument":{"uri":"file:///s"}}}"#;

const SHUTDOWN: &str = r#"{"jsonrpc":"2.0","id":99,"method":"shutdown"}"#;

const EXIT: &str = r#"{"jsonrpc":"2.0","method":"exit"}"#;

const INITIALIZED: &str =
    r#"{"id":0,"jsonrpc":"2.0","result":{"capabilities":{"renameProvider":true,"textDocumentSync":{"change":2,"openClose":true}},"serverInfo":{"name":"gqls"}}}"#;

const RENAMED: &str =
    r#"{"id":8,"jsonrpc":"2.0","result":{"documentChanges":[{"edits":[{"newText":"B","range":{"end":{"character":5,"line":0},"start":{"character":4,"line":0}}},{"newText":"B","range":{"end":{"character":17,"line":0},"start":{"character":16,"line":0}}}],"textDocument":{"uri":"file:///q","version":1}}]}}"#;

const SHUT_DOWN: &str = r#"{"id":99,"jsonrpc":"2.0","result":null}"#;

/// What workers see when both documents are open.
const OPENED: &str =
    "put file:///s 1: type Query{x:Int}\nput file:///q 1: {...A} fragment A on Query{x}\n";

/// Hands that write down what they are given, and take no more than they have room for.
#[derive(Drop)]
struct Noted {
    told: String,
    /// How many pieces came with each job.
    pieces: String,
    room: usize,
    closed: bool,
}

impl Noted {
    fn enter(&mut self) -> Result<(), HandsFault>
        ensures { IsErrOf result HandsFault.Closed → self.new.closed ≡ true }
    {
        if self.room == 0 {
            self.closed = true;
            return Err(HandsFault::Closed);
        }
        self.room -= 1;
        Ok(())
    }
}

impl Hands for Noted {
    ghost takes = { λ _ _ _. Unit {0} };

    ghost refuses = { λ _ _ _. Unit {0} };

    ghost closed = { λ n. n.closed };

    fn publish(&mut self, change: DocChange) -> Result<(), HandsFault> {
        self.enter()?;
        let written = match change {
            DocChange::Put(doc) => {
                let (key, text) = (doc.key.as_str(), doc.text.as_str());
                write!(
                    self.told,
                    "put {key} {}: {text}\n",
                    doc.version.unwrap_or(0)
                )
            }
            DocChange::Close(key) => write!(self.told, "close {}\n", key.as_str()),
        };
        match written {
            Ok(()) => Ok(()),
            Err(_) => Err(HandsFault::NoMemory),
        }
    }

    fn job(&mut self, job: Job) -> Result<(), HandsFault> {
        self.enter()?;
        if write!(self.pieces, "{}: {}\n", job.number, job.pieces.len()).is_err() {
            return Err(HandsFault::NoMemory);
        }
        match write!(self.told, "job {}\n", job.number) {
            Ok(()) => Ok(()),
            Err(_) => Err(HandsFault::NoMemory),
        }
    }
}

/// What driving came to.
#[derive(Drop)]
struct Driven {
    written: String,
    told: String,
    pieces: String,
    ended: Result<u8, DriveFault>,
}

fn note_up_to(alloc: Global, room: usize) -> Noted {
    Noted {
        told: String::new(alloc),
        pieces: String::new(alloc),
        room,
        closed: false,
    }
}

/// What driving a new desk with two workers over the events comes to, where the hands have room for so many.
fn drive_new(alloc: Global, events: Vec<Event>, room: usize) -> Result<Driven, Fail> {
    let mut desk = Desk::new(alloc, 2);
    let driven = drive_lent(alloc, &mut desk, events, room);
    drop(desk);
    driven
}

/// What driving a desk that is new comes to. The desk is lent, and its parts are dropped in one place.
fn drive_lent(
    alloc: Global,
    desk: &mut Desk,
    events: Vec<Event>,
    room: usize,
) -> Result<Driven, Fail>
    requires { IfSome desk.old (λ s. s.jobs.next ≤ 2 ^ 61) }
{
    let mut events = events.into_iter();
    let mut hands = note_up_to(alloc, room);
    let mut sink = Flagged::new(Vec::new(alloc));
    let ended = drive(alloc, desk, &mut events, &mut hands, &mut sink);
    Ok(Driven {
        written: String::from_utf8(sink.inner)?,
        told: hands.told,
        pieces: hands.pieces,
        ended,
    })
}

/// What driving a new desk comes to over the first events, which end as is told, and then over the others.
fn drive_both(
    alloc: Global,
    desk: &mut Desk,
    first: Vec<Event>,
    others: Vec<Event>,
    room: usize,
) -> Result<(Result<u8, DriveFault>, Driven), Fail>
    requires { StandsFor 2 [] desk.old }
{
    numbers_stay_low();
    let mut first = first.into_iter();
    let mut hands = note_up_to(alloc, room);
    let mut sink = Flagged::new(Vec::new(alloc));
    let early = drive(alloc, desk, &mut first, &mut hands, &mut sink);
    if sink.failed {
        return Err("the sink has failed".into());
    }
    let mut others = others.into_iter();
    let ended = drive(alloc, desk, &mut others, &mut hands, &mut sink);
    let driven = Driven {
        written: String::from_utf8(sink.inner)?,
        told: hands.told,
        pieces: hands.pieces,
        ended,
    };
    Ok((early, driven))
}

/// The same of a desk with two workers, where the hands have room for so many.
fn drive_twice(
    alloc: Global,
    first: Vec<Event>,
    others: Vec<Event>,
    room: usize,
) -> Result<(Result<u8, DriveFault>, Driven), Fail> {
    new_desks_stand_for_none();
    let mut desk = Desk::new(alloc, 2);
    drive_both(alloc, &mut desk, first, others, room)
}

fn message(alloc: Global, body: &str) -> Result<Event, Fail> {
    Ok(Event::Message(read_message(alloc, body.as_bytes())?))
}

/// Adds the messages of these bodies.
fn add_messages(alloc: Global, bodies: &[&str], events: &mut Vec<Event>) -> Result<(), Fail> {
    for body in bodies {
        events.push(message(alloc, body)?)?;
    }
    Ok(())
}

/// The request to rename the fragment.
fn rename(alloc: Global, id: u64) -> Result<String, Fail> {
    let place = r#""position":{"character":4,"line":0},"textDocument":{"uri":"file:///q"}"#;
    Ok(format!(in alloc;
        "{{\"id\":{id},\"jsonrpc\":\"2.0\",\"method\":\"textDocument/rename\",\"params\":{{\"newName\":\"B\",{place}}}}}"
    )?)
}

fn cancel(alloc: Global, id: u64) -> Result<String, Fail> {
    Ok(format!(in alloc;
        "{{\"jsonrpc\":\"2.0\",\"method\":\"$/cancelRequest\",\"params\":{{\"id\":{id}}}}}"
    )?)
}

/// The body of a reply that tells an error.
fn error(alloc: Global, id: u64, code: i64, words: &str) -> Result<String, Fail> {
    Ok(format!(in alloc;
        "{{\"error\":{{\"code\":{code},\"message\":\"{words}\"}},\"id\":{id},\"jsonrpc\":\"2.0\"}}"
    )?)
}

/// Whether each text has at most 4 MiB.
pub fn are_texts(texts: &Project) -> bool
    ensures { result ≡ true → AreTexts texts.now }
{
    texts
        .documents()
        .iter()
        .all(|doc| doc.text.as_str().len() <= TEXT_MAX)
}

fn file(alloc: Global, key: &str, version: i64, text: &str) -> Result<Doc, Fail> {
    Ok(Doc {
        key: OwnedText::from_str(alloc, key)?,
        uri: OwnedText::from_str(alloc, key)?,
        version: Some(version),
        text: OwnedText::from_str(alloc, text)?,
    })
}

/// The documents, the schema at that version and with that text.
fn texts(alloc: Global, version: i64, schema: &str) -> Result<Project, Fail> {
    let mut texts = Project::new(alloc);
    texts.put(file(alloc, "file:///s", version, schema)?)?;
    texts.put(file(alloc, "file:///q", 1, "{...A} fragment A on Query{x}")?)?;
    Ok(texts)
}

/// The task of a request to rename.
fn task(alloc: Global, id: u64) -> Result<Task, Fail> {
    match read_message(alloc, rename(alloc, id)?.as_bytes())? {
        Incoming::Request(id, request) => match request {
            Request::Ask(question) => Ok(Task::Ask(PositionEncoding::Utf16, id, question)),
            _ => Err("no question".into()),
        },
        _ => Err("no request".into()),
    }
}

/// What a worker makes of a job of that number: to rename as the request of that id asks, about these texts.
fn done(alloc: Global, job: u64, id: u64, texts: Project) -> Result<Event, Fail> {
    let mut kept = Kept::of(alloc, &Project::new(alloc))?;
    event_by(alloc, job, id, texts, &mut kept)
}

/// The same of a worker that keeps this.
fn event_by(
    alloc: Global,
    job: u64,
    id: u64,
    texts: Project,
    kept: &mut Kept,
) -> Result<Event, Fail> {
    Ok(Event::Done(done_by(alloc, job, id, texts, &[], kept)?))
}

/// The same of a worker that keeps this, by these pieces.
fn done_by(
    alloc: Global,
    job: u64,
    id: u64,
    texts: Project,
    pieces: &[Arc<Piece>],
    kept: &mut Kept,
) -> Result<Done, Fail> {
    if !are_texts(&texts) {
        return Err("a text is too long".into());
    }
    Ok(Done::of(alloc, job, task(alloc, id)?, texts, pieces, kept))
}

/// The bodies, each in its frame.
fn frames(alloc: Global, bodies: &[&str]) -> Result<String, Fail> {
    let mut text = String::new(alloc);
    for body in bodies {
        write!(text, "Content-Length: {}\r\n\r\n{body}", body.len())?;
    }
    Ok(text)
}

/// Two documents are opened, and a rename is asked for.
fn add_early(alloc: Global, events: &mut Vec<Event>) -> Result<(), Fail> {
    let seventh = rename(alloc, 7)?;
    add_messages(
        alloc,
        &[INITIALIZE, OPEN_S, OPEN_Q, seventh.as_str()],
        events,
    )
}

/// A change decides it. A second rename is answered by a result about the documents of then, once.
fn add_late(alloc: Global, events: &mut Vec<Event>) -> Result<(), Fail> {
    add_messages(alloc, &[CHANGE_S], events)?;
    events.push(done(alloc, 1, 7, texts(alloc, 1, "type Query{x:Int}")?)?)?;
    events.push(message(alloc, rename(alloc, 8)?.as_str())?)?;
    events.push(done(alloc, 2, 8, texts(alloc, 1, "type Query{x:Int}")?)?)?;
    events.push(done(alloc, 2, 8, texts(alloc, 2, "type Query{x:Int y:Int}")?)?)?;
    events.push(done(alloc, 2, 8, texts(alloc, 2, "type Query{x:Int y:Int}")?)?)?;
    add_messages(alloc, &[CLOSE_S, SHUTDOWN, EXIT, OPEN_S], events)
}

/// What is handed on for them.
const RESULTS_TOLD: &str =
    "put file:///s 1: type Query{x:Int}\nput file:///q 1: {...A} fragment A on Query{x}\njob 1\nput file:///s 2: type Query{x:Int y:Int}\njob 2\nclose file:///s\n";

/// What is written for them.
fn results_written(alloc: Global) -> Result<String, Fail> {
    let modified = error(alloc, 7, -32801, "content modified")?;
    frames(alloc, &[INITIALIZED, modified.as_str(), RENAMED, SHUT_DOWN])
}

#[test]
fn changes_and_jobs_are_handed_on(rt: HostRuntime) -> Result<(), Fail> {
    let alloc = rt.alloc();
    let mut events = Vec::new(alloc);
    add_early(alloc, &mut events)?;
    add_late(alloc, &mut events)?;
    let driven = drive_new(alloc, events, usize::MAX)?;
    let written = results_written(alloc)?;
    assert_eq!(rt; driven.told.as_str(), RESULTS_TOLD);
    assert_eq!(rt; driven.written.as_str(), written.as_str());
    assert_eq!(rt; driven.ended, Ok(0));
    Ok(())
}

#[test]
fn a_desk_is_driven_on(rt: HostRuntime) -> Result<(), Fail> {
    let alloc = rt.alloc();
    let mut first = Vec::new(alloc);
    let mut others = Vec::new(alloc);
    add_early(alloc, &mut first)?;
    add_late(alloc, &mut others)?;
    let (early, driven) = drive_twice(alloc, first, others, usize::MAX)?;
    let written = results_written(alloc)?;
    assert_eq!(rt; driven.told.as_str(), RESULTS_TOLD);
    assert_eq!(rt; driven.written.as_str(), written.as_str());
    assert_eq!(rt; (early, driven.ended), (Ok(1), Ok(0)));
    Ok(())
}

/// The hands refuse the first job. Then the desk has failed, and takes nothing more.
#[test]
fn a_desk_fails_where_hands_take_no_more(rt: HostRuntime) -> Result<(), Fail> {
    let alloc = rt.alloc();
    let mut first = Vec::new(alloc);
    let mut others = Vec::new(alloc);
    add_early(alloc, &mut first)?;
    add_late(alloc, &mut others)?;
    let (early, driven) = drive_twice(alloc, first, others, 2)?;
    let written = frames(alloc, &[INITIALIZED])?;
    assert_eq!(rt; driven.told.as_str(), OPENED);
    assert_eq!(rt; driven.written.as_str(), written.as_str());
    let faults = (Err(DriveFault::Closed), Err(DriveFault::Failed));
    assert_eq!(rt; (early, driven.ended), faults);
    Ok(())
}

#[test]
fn a_cancel_and_a_shutdown_decide(rt: HostRuntime) -> Result<(), Fail> {
    let alloc = rt.alloc();
    let mut events = Vec::new(alloc);
    let (fourth, fifth) = (rename(alloc, 4)?, rename(alloc, 5)?);
    let cancel = cancel(alloc, 4)?;
    let asked = [
        fourth.as_str(),
        fifth.as_str(),
        cancel.as_str(),
        cancel.as_str(),
    ];
    add_messages(alloc, &[INITIALIZE, OPEN_S, OPEN_Q], &mut events)?;
    add_messages(alloc, &asked, &mut events)?;
    add_messages(alloc, &[SHUTDOWN], &mut events)?;
    events.push(done(alloc, 2, 5, texts(alloc, 1, "type Query{x:Int}")?)?)?;
    let driven = drive_new(alloc, events, usize::MAX)?;
    let cancelled = error(alloc, 4, -32800, "cancelled")?;
    let refused = error(alloc, 5, -32803, "shutdown")?;
    let written = frames(
        alloc,
        &[INITIALIZED, cancelled.as_str(), refused.as_str(), SHUT_DOWN],
    )?;
    let told = format!(in alloc; "{OPENED}job 1\njob 2\n")?;
    assert_eq!(rt; driven.told.as_str(), told.as_str());
    assert_eq!(rt; driven.written.as_str(), written.as_str());
    assert_eq!(rt; driven.ended, Ok(1));
    Ok(())
}

/// Adds so many renames, each cancelled at once.
fn add_cancelled(alloc: Global, count: u64, events: &mut Vec<Event>) -> Result<(), Fail> {
    for id in 1..=count {
        events.push(message(alloc, rename(alloc, id)?.as_str())?)?;
        events.push(message(alloc, cancel(alloc, id)?.as_str())?)?;
    }
    Ok(())
}

/// The jobs of these numbers, handed on.
fn jobs(alloc: Global, count: u64) -> Result<String, Fail> {
    let mut told = String::from_str(alloc, OPENED)?;
    for number in 1..=count {
        write!(told, "job {number}\n")?;
    }
    Ok(told)
}

/// 64 jobs are out, though none is pending; the next one waits for a result of one of them.
#[test]
fn a_job_waits_for_room(rt: HostRuntime) -> Result<(), Fail> {
    let alloc = rt.alloc();
    let mut events = Vec::new(alloc);
    add_messages(alloc, &[INITIALIZE, OPEN_S, OPEN_Q], &mut events)?;
    add_cancelled(alloc, 65, &mut events)?;
    events.push(message(alloc, rename(alloc, 8)?.as_str())?)?;
    events.push(done(alloc, 3, 8, texts(alloc, 1, "type Query{x:Int}")?)?)?;
    events.push(done(alloc, 66, 8, texts(alloc, 1, "type Query{x:Int}")?)?)?;
    let driven = drive_new(alloc, events, usize::MAX)?;
    let mut told = jobs(alloc, 64)?;
    told.push_str("job 66\n")?;
    assert_eq!(rt; driven.told.as_str(), told.as_str());
    assert!(rt; driven.written.as_str().ends_with(RENAMED));
    assert_eq!(rt; driven.ended, Ok(1));
    Ok(())
}

/// The pieces of the first result come with the next job, and with the one after it those of texts that did not change.
#[test]
fn pieces_come_with_jobs(rt: HostRuntime) -> Result<(), Fail> {
    let alloc = rt.alloc();
    let mut events = Vec::new(alloc);
    add_early(alloc, &mut events)?;
    events.push(done(alloc, 1, 7, texts(alloc, 1, "type Query{x:Int}")?)?)?;
    events.push(message(alloc, rename(alloc, 8)?.as_str())?)?;
    events.push(message(alloc, cancel(alloc, 8)?.as_str())?)?;
    add_messages(alloc, &[CHANGE_S], &mut events)?;
    events.push(message(alloc, rename(alloc, 9)?.as_str())?)?;
    let driven = drive_new(alloc, events, usize::MAX)?;
    assert_eq!(rt; driven.pieces.as_str(), "1: 0\n2: 2\n3: 1\n");
    assert_eq!(rt; driven.ended, Ok(1));
    Ok(())
}

/// Whether a worker made this answer to the rename, and so many pieces.
fn renamed_with(alloc: Global, done: &Done, pieces: usize) -> Result<bool, Fail> {
    let Answer::Response(message) = &done.answer else {
        return Ok(false);
    };
    let frame = String::from_utf8(encode(alloc, message)?)?;
    Ok(frame.as_str().ends_with(RENAMED) && done.pieces.len() == pieces)
}

/// Whether one worker makes pieces of both texts, another one, who has them, none, and none but that of a text that changed.
fn are_taken(alloc: Global, one: &mut Kept, another: &mut Kept) -> Result<bool, Fail> {
    let schema = "type Query{x:Int}";
    let made = done_by(alloc, 1, 8, texts(alloc, 1, schema)?, &[], one)?;
    let taken = done_by(alloc, 2, 8, texts(alloc, 1, schema)?, &made.pieces, another)?;
    let changed = texts(alloc, 2, "type Query{x:Int y:Int}")?;
    let mended = done_by(alloc, 3, 8, changed, &made.pieces, another)?;
    Ok(
        renamed_with(alloc, &made, 2)?
            && renamed_with(alloc, &taken, 0)?
            && renamed_with(alloc, &mended, 1)?,
    )
}

/// The same, where the other worker keeps nothing yet.
fn are_taken_from(alloc: Global, one: &mut Kept) -> Result<bool, Fail> {
    let mut another = Kept::of(alloc, &Project::new(alloc))?;
    are_taken(alloc, one, &mut another)
}

/// The same, where neither keeps anything yet.
fn pieces_are_taken(alloc: Global) -> Result<bool, Fail> {
    let mut one = Kept::of(alloc, &Project::new(alloc))?;
    are_taken_from(alloc, &mut one)
}

#[test]
fn a_worker_takes_the_pieces_of_a_job(rt: HostRuntime) -> Result<(), Fail> {
    let alloc = rt.alloc();
    assert!(rt; pieces_are_taken(alloc)?);
    Ok(())
}
