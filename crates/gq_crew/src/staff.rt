//! The workers of a crew: what each of them owns, and how it is started.
ghost use Rattle.std.specs.Prelude.{◌≡◌, IfErr};
ghost use Rattle.gq_crew.specs.Helping.Sides.{IsStartFault};
ghost use Rattle.gq_workers.specs.Ends.{posted, reader_on};

use gq_board::{Looker, Room};
use gq_reader::RunFault;
use gq_text::NoMemory;
use gq_workers::{Gate, Jobs, JobsIn, Outbox, ReaderEnd, work};
use std::alloc::Global;
use std::sync::Wait;
use std::thread::{Scope, Threads};

/// What one worker's thread owns.
#[derive(Drop)]
pub struct Hire<J: Room> {
    looker: Looker<J>,
    jobs: JobsIn<J>,
    outbox: Outbox<J>,
}

/// What a worker's thread does.
fn serve<J: Room, G: Gate, R: Wait>(rt: &R, alloc: Global, hire: Hire<J>, gate: &G) {
    let Hire {
        looker,
        mut jobs,
        mut outbox,
    } = hire;
    work(rt, alloc, looker, &mut jobs, &mut outbox, gate);
}

/// What one more worker needs beside its looker.
fn worker_ends<J: Room>(
    jobs: &mut Jobs<J>,
    reader: &mut ReaderEnd<J>,
) -> Result<(JobsIn<J>, Outbox<J>), NoMemory>
    ensures posted { posted reader.new ≡ posted reader.old }
    ensures on { reader_on reader.new ≡ reader_on reader.old }
{
    let outbox = reader.outbox()?;
    let jobs = jobs.worker()?;
    Ok((jobs, outbox))
}

/// Starts one worker.
fn start_worker<
    's,
    E,
    J: Room + Send + Sync + 's,
    G: Gate + Sync + 's,
    R: Threads + Wait + Sync + 's,
>(
    scope: &Scope<'s, E>,
    rt: &'s R,
    alloc: Global,
    looker: Looker<J>,
    jobs: &mut Jobs<J>,
    reader: &mut ReaderEnd<J>,
    gate: &'s G,
) -> Result<(), RunFault>
    ensures posted { posted reader.new ≡ posted reader.old }
    ensures on { reader_on reader.new ≡ reader_on reader.old }
    ensures fault { IfErr result IsStartFault }
{
    let Ok((jobs, outbox)) = worker_ends(jobs, reader) else {
        return Err(RunFault::NoMemory);
    };
    let hire = Hire {
        looker,
        jobs,
        outbox,
    };
    if scope.spawn(move || serve(rt, alloc, hire, gate)).is_ok() {
        Ok(())
    } else {
        Err(RunFault::NoThread)
    }
}

/// Starts so many workers, as far as there are lookers.
pub fn start_all<
    's,
    E,
    J: Room + Send + Sync + 's,
    G: Gate + Sync + 's,
    R: Threads + Wait + Sync + 's,
>(
    scope: &Scope<'s, E>,
    rt: &'s R,
    alloc: Global,
    workers: u8,
    mut lookers: Vec<Looker<J>>,
    jobs: &mut Jobs<J>,
    reader: &mut ReaderEnd<J>,
    gate: &'s G,
) -> Result<(), RunFault>
    ensures posted { posted reader.new ≡ posted reader.old }
    ensures on { reader_on reader.new ≡ reader_on reader.old }
    ensures fault { IfErr result IsStartFault }
{
    for _started in 0..workers {
        let Some(looker) = lookers.pop() else {
            return Ok(());
        };
        start_worker(scope, rt, alloc, looker, jobs, reader, gate)?;
    }
    Ok(())
}
