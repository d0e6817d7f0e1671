//! A board between threads: what was told is found.
ghost use Rattle.std.specs.Prelude.{◌≡◌, []};

use crossbeam_channel::{Receiver, Sender, unbounded};
use gq_board::{Front, Looker, Opened, Room, Told, open};
use gq_project::{Doc, DocChange, Project};
use gq_text::{NoMemory, OwnedText};
use std::alloc::Global;
use std::collections::VecDeque;
use std::marker::Brand;
use std::process::Abort;
use std::sync::Wait;
use std::test::Fail;
use std::thread::{Threads, join};

/// So many changes are published.
const CHANGES: u64 = 1000;

/// The change that gives a document that text.
fn put(alloc: Global, version: i64, text: &str) -> Result<DocChange, NoMemory> {
    Ok(DocChange::Put(Doc {
        key: OwnedText::from_str(alloc, "file:///a.graphql")?,
        uri: OwnedText::from_str(alloc, "file:///a.graphql")?,
        version: Some(version),
        text: OwnedText::from_str(alloc, text)?,
    }))
}

/// Publishes a change, and tells it.
fn publish_and_tell<J: Room, R: Wait>(
    rt: &R,
    front: &mut Front<J>,
    change: DocChange,
    to: &Sender<Told<J>>,
) -> bool {
    front.publish(rt, change).is_ok() && to.send(rt, front.tell()).is_ok()
}

/// Learns what it is told, looks, and answers whether the document has that text.
fn learn_and_look<J: Room, R: Wait>(
    rt: &R,
    mut looker: Looker<J>,
    from: Receiver<Told<J>>,
    text: &str,
) -> bool {
    let Ok(told) = from.recv(rt) else {
        return false;
    };
    looker.learn(&told);
    let Ok(seen) = looker.look() else {
        return false;
    };
    let found = seen.project().text("file:///a.graphql") == Some(text);
    seen.leave();
    found
}

/// One thread publishes and tells, and another learns, looks and finds.
fn found_across<J: Room + Send + Sync, R: Threads + Wait + Abort + Sync>(
    rt: &R,
    alloc: Global,
    opened: Opened,
) -> Result<(), Fail>
    requires book { opened.log.book ≡ J.book }
    requires base { J.base ≡ [] }
{
    let change = put(alloc, 1, "{ a }")?;
    let (to, from) = unbounded(alloc)?;
    let (mut front, mut lookers) = open::<J, R>(rt, alloc, opened, Project::new(alloc)).map_err(
        |_| "the board opens",
    )?;
    let both = match lookers.pop() {
        Some(looker) => join(
            rt,
            || publish_and_tell(rt, &mut front, change, &to),
            || learn_and_look(rt, looker, from, "{ a }"),
        ),
        None => (false, false),
    };
    front.close(rt);
    assert_eq!(rt; both, (true, true));
    Ok(())
}

#[test]
fn a_told_change_is_found(rt: HostRuntime) -> Result<(), Fail> {
    found_across::<Brand, _>(&rt, rt.alloc(), Opened::new())
}

/// Publishes so many changes, and tells each.
fn tell_often<J: Room, R: Wait>(
    rt: &R,
    alloc: Global,
    front: &mut Front<J>,
    to: Sender<Told<J>>,
) -> u64 {
    let mut told = 0u64;
    for _ in 0..CHANGES {
        let Ok(change) = put(alloc, 1, "{ b }") else {
            break;
        };
        if !publish_and_tell(rt, front, change, &to) {
            break;
        }
        told = told.saturating_add(1);
    }
    told
}

/// Lookers that learn in turn what is told, and look: how often one sees all that it was told, and how often it is not let in.
fn look_often<J: Room, R: Wait>(
    rt: &R,
    mut lookers: VecDeque<Looker<J>>,
    from: Receiver<Told<J>>,
) -> (u64, u64) {
    let (mut fresh, mut refused) = (0u64, 0u64);
    for told in from.iter(rt) {
        let Some(mut looker) = lookers.pop_front() else {
            break;
        };
        looker.learn(&told);
        let looker = match looker.look() {
            Ok(seen) => {
                fresh = fresh.saturating_add(1);
                seen.leave()
            }
            Err(looker) => {
                refused = refused.saturating_add(1);
                looker
            }
        };
        if lookers.push_back(looker).is_err() {
            break;
        }
    }
    (fresh, refused)
}

/// Eight lookers learn in turn while changes are published.
fn told_often<J: Room + Send + Sync, R: Threads + Wait + Abort + Sync>(
    rt: &R,
    alloc: Global,
    opened: Opened,
) -> Result<(), Fail>
    requires book { opened.log.book ≡ J.book }
    requires base { J.base ≡ [] }
{
    let (to, from) = unbounded(alloc)?;
    let (mut front, lookers) = open::<J, R>(rt, alloc, opened, Project::new(alloc)).map_err(
        |_| "the board opens",
    )?;
    let lookers = VecDeque::from_vec(lookers);
    let both = join(
        rt,
        || tell_often(rt, alloc, &mut front, to),
        || look_often(rt, lookers, from),
    );
    front.close(rt);
    assert_eq!(rt; both, (CHANGES, (CHANGES, 0)));
    Ok(())
}

#[test]
fn eight_lookers_learn_in_turn(rt: HostRuntime) -> Result<(), Fail> {
    told_often::<Brand, _>(&rt, rt.alloc(), Opened::new())
}
