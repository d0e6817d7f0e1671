//! News of what is published comes behind the job that it was put with.
ghost use Rattle.std.specs.Prelude.{◌≡◌, []};

use crate::tests::superseded::change_and_check;
use gq_board::{Front, Opened, Room, Told, open};
use gq_project::Project;
use gq_workers::{Dispatch, Jobs, JobsIn};
use std::alloc::Global;
use std::marker::Brand;
use std::process::Abort;
use std::sync::Wait;
use std::test::Fail;

/// What comes to a worker next: the number of a job, or whether news tells of all that is published.
fn taken<J: Room, R: Wait>(
    rt: &R,
    jobs: &mut JobsIn<J>,
    published: &Told<J>,
) -> Option<Result<u64, bool>> {
    match jobs.take(rt)? {
        Dispatch::Order(order) => Some(Ok(order.job.number)),
        Dispatch::News(told) => Some(Err(told.is(published))),
    }
}

/// The first three that come to workers, where a check is put and two workers are told of its change.
fn three_taken<J: Room, R: Wait>(
    rt: &R,
    alloc: Global,
    front: &mut Front<J>,
) -> Result<[Option<Result<u64, bool>>; 3], Fail> {
    let mut channel = Jobs::new(alloc)?;
    let mut one = channel.worker()?;
    let mut other = channel.worker()?;
    let mut jobs = channel.into_out();
    change_and_check(rt, alloc, front, &mut jobs, 1, "{ a }")?;
    let published = front.tell();
    jobs.tell(rt, &published, 2);
    Ok([
        taken(rt, &mut one, &published),
        taken(rt, &mut other, &published),
        taken(rt, &mut one, &published),
    ])
}

/// First comes the job, and then news, once for each of the two.
fn news_comes_behind<J: Room, R: Wait + Abort>(
    rt: &R,
    alloc: Global,
    opened: Opened,
) -> Result<(), Fail>
    requires book { opened.log.book ≡ J.book }
    requires base { J.base ≡ [] }
{
    let (mut front, _lookers) = open::<J, R>(rt, alloc, opened, Project::new(alloc)).map_err(
        |_| "the board opens",
    )?;
    let came = three_taken(rt, alloc, &mut front);
    front.close(rt);
    let [first, second, third] = came?;
    assert_eq!(rt; first, Some(Ok(1)));
    assert_eq!(rt; second, Some(Err(true)));
    assert_eq!(rt; third, Some(Err(true)));
    Ok(())
}

#[test]
fn news_comes_behind_the_job_that_it_was_put_with(rt: HostRuntime) -> Result<(), Fail> {
    news_comes_behind::<Brand, _>(&rt, rt.alloc(), Opened::new())
}
