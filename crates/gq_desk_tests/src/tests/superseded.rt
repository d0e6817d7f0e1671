//! A check behind which documents changed is superseded, and the next one is answered.
ghost use Rattle.std.specs.Prelude.{◌≡◌, []};

use gq_board::{Front, Looker, Opened, Room, open};
use gq_events::{Answer, Done, Job, Task};
use gq_kept::Kept;
use gq_project::{Doc, DocChange, Project};
use gq_rpc::Outgoing;
use gq_text::{NoMemory, OwnedText, PositionEncoding};
use gq_workers::{Dispatch, Jobs, JobsIn, JobsOut, Order, attend};
use std::alloc::Global;
use std::marker::Brand;
use std::process::Abort;
use std::sync::Wait;
use std::test::Fail;

const KEY: &str = "file:///a.graphql";

/// The change that gives a document that text.
fn put(alloc: Global, version: u8, text: &str) -> Result<DocChange, NoMemory> {
    Ok(DocChange::Put(Doc {
        key: OwnedText::from_str(alloc, KEY)?,
        uri: OwnedText::from_str(alloc, KEY)?,
        version: Some(i64::from(version)),
        text: OwnedText::from_str(alloc, text)?,
    }))
}

/// Publishes the change that gives a document that text, and puts a check of it, under the number of its version.
pub(crate) fn change_and_check<J: Room, R: Wait>(
    rt: &R,
    alloc: Global,
    front: &mut Front<J>,
    jobs: &mut JobsOut<J>,
    version: u8,
    text: &str,
) -> Result<(), Fail> {
    let change = put(alloc, version, text)?;
    front
        .publish(rt, change)
        .map_err(|_| "the change is published")?;
    let job = Job {
        number: u64::from(version),
        task: Task::Check(PositionEncoding::Utf16),
        pieces: Vec::new(alloc),
    };
    jobs.put(rt, job, front.tell())
        .map_err(|_| "the job is put")?;
    Ok(())
}

/// The order, if that is what came.
fn order_in<J: Room>(dispatch: Dispatch<J>) -> Option<Order<J>> {
    match dispatch {
        Dispatch::Order(order) => Some(order),
        Dispatch::News(_) => None,
    }
}

/// What is made of the order in front.
fn attend_one<J: Room, R: Wait>(
    rt: &R,
    alloc: Global,
    looker: Looker<J>,
    jobs: &mut JobsIn<J>,
    kept: &mut Kept,
) -> Result<(Looker<J>, Done), Fail> {
    let order = jobs.take(rt).and_then(order_in).ok_or("an order is there")?;
    let (looker, sent) = attend(alloc, looker, order, kept);
    let sent = sent.map_err(|_| "the order is answered")?;
    Ok((looker, sent.into_done()))
}

/// What is made of two checks: the first is put before the second change, and both are taken behind it.
fn attend_both<J: Room, R: Wait>(
    rt: &R,
    alloc: Global,
    front: &mut Front<J>,
    looker: Looker<J>,
    (jobs, taken): (&mut JobsOut<J>, &mut JobsIn<J>),
    kept: &mut Kept,
) -> Result<(Done, Done), Fail> {
    change_and_check(rt, alloc, front, jobs, 1, "{ a }")?;
    change_and_check(rt, alloc, front, jobs, 2, "{ b }")?;
    let (looker, first) = attend_one(rt, alloc, looker, taken, kept)?;
    let (_, second) = attend_one(rt, alloc, looker, taken, kept)?;
    Ok((first, second))
}

/// The same, through a channel of its own.
fn answer_both<J: Room, R: Wait>(
    rt: &R,
    alloc: Global,
    front: &mut Front<J>,
    looker: Looker<J>,
    kept: &mut Kept,
) -> Result<(Done, Done), Fail> {
    let mut channel = Jobs::new(alloc)?;
    let mut taken = channel.worker()?;
    let mut jobs = channel.into_out();
    attend_both(rt, alloc, front, looker, (&mut jobs, &mut taken), kept)
}

/// The same, by a worker that has kept nothing so far.
fn answer_anew<J: Room, R: Wait>(
    rt: &R,
    alloc: Global,
    front: &mut Front<J>,
    looker: Looker<J>,
) -> Result<(Done, Done), Fail> {
    let mut kept = Kept::of(alloc, &Project::new(alloc))?;
    answer_both(rt, alloc, front, looker, &mut kept)
}

/// How many documents a report is of, and the version of the first.
fn report_of(answer: &Answer) -> Option<(usize, Option<i64>)> {
    let Answer::Report(messages) = answer else {
        return None;
    };
    let messages = messages.as_slice();
    match messages.first() {
        Some(Outgoing::Diagnostics(params)) => Some((messages.len(), params.version)),
        _ => None,
    }
}

/// The first check is answered as superseded, and the second by a report of the last documents.
fn one_is_superseded<J: Room, R: Wait + Abort>(
    rt: &R,
    alloc: Global,
    opened: Opened,
) -> Result<(), Fail>
    requires book { opened.log.book ≡ J.book }
    requires base { J.base ≡ [] }
{
    let (mut front, mut lookers) = open::<J, R>(rt, alloc, opened, Project::new(alloc)).map_err(
        |_| "the board opens",
    )?;
    let both = match lookers.pop() {
        Some(looker) => answer_anew(rt, alloc, &mut front, looker),
        None => Err(Fail::from("a looker is there")),
    };
    front.close(rt);
    let (first, second) = both?;
    assert_eq!(rt;
        (first.job, matches!(first.answer, Answer::Superseded)),
        (1, true)
    );
    assert_eq!(rt; first.texts.text(KEY), Some("{ b }"));
    assert_eq!(rt;
        (second.job, report_of(&second.answer)),
        (2, Some((1, Some(2))))
    );
    Ok(())
}

#[test]
fn a_check_of_earlier_documents_is_superseded(rt: HostRuntime) -> Result<(), Fail> {
    one_is_superseded::<Brand, _>(&rt, rt.alloc(), Opened::new())
}
