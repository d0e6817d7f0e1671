//! A run with workers: one thread reads, one is the desk, and the others answer.
ghost use Rattle.std.specs.Prelude.{◌≡◌, ◌<◌, ◌⊎◌, [], Some, false, IfOk};
ghost use Rattle.std.specs.Thread.{IsSend, IsSync};
ghost use Rattle.gq_crew.specs.Runs.{Ran as RanAlone, source_after, files_after, sink_after};
ghost use Rattle.gq_crew.specs.Crew.{RanByThreads};
ghost use Rattle.gq_crew.specs.Helping.Settled.{settled};
ghost use Rattle.gq_crew.specs.Helping.Sides.{Given, GivenSides, devices_of, Comes};
ghost use Rattle.gq_workers.specs.Ends.{posted, collected, collected_in, reader_on, desk_on, collected_on};
ghost use mathlib.Core.List.{IsPrefix};

use crate::desk_side::{DeskCame, DeskSide, drive_side};
use crate::one_thread::{Ended, failed, run_one, stopped};
use crate::reader_side::{ReaderCame, ReaderSide};
use crate::reader_thread::{join_reader, start_reader};
use crate::staff::start_all;
use gq_board::{BoardFault, Front, Looker, Opened, Room, open};
use gq_project::Project;
use gq_reader::loads::fault_of;
use gq_reader::{Files, RunFault};
use gq_rpc::{Sink, Source};
use gq_text::{NoMemory, OwnedText};
use gq_workers::{DeskEnd, Gate, Jobs, ReaderEnd, compare, inbox};
use std::alloc::Global;
use std::marker::Brand;
use std::sync::Wait;
use std::sync::atomic::AtomicU64;
use std::thread;
use std::thread::{Scope, Threads};

/// A run that has ended, with the devices that it was given.
#[derive(Drop)]
pub struct Ran<S, K, F> {
    pub ended: Ended,
    pub input: S,
    pub output: K,
    pub files: F,
}

/// The devices of a run.
#[derive(Drop)]
pub struct Devices<S, K, F> {
    pub input: S,
    pub output: K,
    pub files: F,
}

/// How a run ended: as the desk did; where that stopped, at the fault that the reader told.
fn settle_ended(told: Option<RunFault>, desk: Ended) -> Ended
    ensures { result ≡ settled told desk }
{
    match desk.fault {
        Some(_) => desk,
        None => stopped(desk.status, told),
    }
}

/// A run of which the reader's and the desk's thread have ended.
fn settle<J: Room, S, K, F>(read: ReaderCame<J, S, F>, drove: DeskCame<J, K>) -> Ran<S, K, F>
    requires same { collected_on drove.collected ≡ reader_on read.end }
    ensures begins { IsPrefix (collected_in drove.collected) (posted read.end) }
    ensures ended { result.ended ≡ settled read.told drove.ended }
    ensures input { result.input ≡ read.input }
    ensures output { result.output ≡ drove.output }
    ensures files { result.files ≡ read.files }
{
    let ReaderCame {
        input,
        files,
        end,
        told,
    } = read;
    let DeskCame {
        output,
        collected,
        ended,
    } = drove;
    compare(end, collected);
    Ran {
        ended: settle_ended(told, ended),
        input,
        output,
        files,
    }
}

/// A run that could not begin: nothing was read, and nothing was written.
fn unserved<S: Source, K: Sink, F: Files>(
    fault: RunFault,
    devices: Devices<S, K, F>,
) -> Ran<S, K, F>
    ensures ended { result.ended ≡ record { status = 3; fault = Some fault } }
    ensures input { result.input ≡ devices.input }
    ensures output { result.output ≡ devices.output }
    ensures files { result.files ≡ devices.files }
{
    let Devices {
        input,
        output,
        files,
    } = devices;
    Ran {
        ended: failed(fault),
        input,
        output,
        files,
    }
}

/// The same, where not all threads could be started. The ends go, so that the threads that were made end too.
fn let_go<J: Room, S: Source, K: Sink, F: Files>(
    fault: RunFault,
    reader: ReaderSide<J, S, F>,
    desk: DeskSide<'_, J, K>,
) -> Ran<S, K, F>
    ensures ended { result.ended ≡ record { status = 3; fault = Some fault } }
    ensures input { result.input ≡ reader.input }
    ensures output { result.output ≡ desk.entry.output }
    ensures files { result.files ≡ reader.files }
{
    let ReaderSide {
        input,
        files,
        keys: _,
        end: _,
    } = reader;
    let DeskSide {
        end: _,
        front: _,
        jobs: _,
        output,
    } = desk;
    Ran {
        ended: failed(fault),
        input,
        output,
        files,
    }
}

/// Reads in one thread, and drives the desk in this one.
fn serve_both<
    's,
    E,
    J: Room + Send + Sync + 's,
    S: Source + Send + Drop + 's,
    K: Sink + Drop,
    F: Files + Send + Drop + 's,
    R: Threads + Wait + Sync + 's,
>(
    scope: &Scope<'s, E>,
    rt: &'s R,
    alloc: Global,
    workers: u8,
    reader: ReaderSide<J, S, F>,
    desk: DeskSide<'_, J, K>,
    rests: &'s AtomicU64,
) -> Ran<S, K, F>
    requires base { J.base ≡ [] }
    requires given { GivenSides S.failed K.failed F.failed reader desk }
    ensures { Comes F.reads F.has F.failed F.too_deep S.left S.ended S.failed K.held K.failed workers reader.keys.items (devices_of reader desk.entry) result }
{
    match start_reader(scope, rt, alloc, reader, rests) {
        Ok(thread) => {
            let drove = drive_side(rt, alloc, workers, desk);
            settle(join_reader(rt, alloc, thread), drove)
        }
        Err(Ok(read)) => settle(read, drive_side(rt, alloc, workers, desk)),
        Err(Err(reader)) => let_go(RunFault::NoThread, reader, desk),
    }
}

/// Starts the workers' threads, and then serves beside them.
fn serve_beside<
    's,
    E,
    J: Room + Send + Sync + 's,
    S: Source + Send + Drop + 's,
    K: Sink + Drop,
    F: Files + Send + Drop + 's,
    G: Gate + Sync + 's,
    R: Threads + Wait + Sync + 's,
>(
    scope: &Scope<'s, E>,
    rt: &'s R,
    alloc: Global,
    workers: u8,
    lookers: Vec<Looker<J>>,
    mut reader: ReaderSide<J, S, F>,
    mut desk: DeskSide<'_, J, K>,
    gate: &'s G,
    rests: &'s AtomicU64,
) -> Ran<S, K, F>
    requires base { J.base ≡ [] }
    requires given { GivenSides S.failed K.failed F.failed reader desk }
    ensures { Comes F.reads F.has F.failed F.too_deep S.left S.ended S.failed K.held K.failed workers reader.keys.items (devices_of reader desk.entry) result }
{
    match start_all(
        scope,
        rt,
        alloc,
        workers,
        lookers,
        &mut desk.jobs,
        &mut reader.end,
        gate,
    ) {
        Ok(()) => serve_both(scope, rt, alloc, workers, reader, desk, rests),
        Err(fault) => let_go(fault, reader, desk),
    }
}

/// Serves with workers: their threads end before it does.
fn serve_crew<
    J: Room + Send + Sync,
    S: Source + Send + Drop,
    K: Sink + Drop,
    F: Files + Send + Drop,
    G: Gate + Sync,
    R: Threads + Wait + Sync,
>(
    rt: &R,
    alloc: Global,
    workers: u8,
    lookers: Vec<Looker<J>>,
    reader: ReaderSide<J, S, F>,
    desk: DeskSide<'_, J, K>,
    gate: &G,
) -> Ran<S, K, F>
    requires base { J.base ≡ [] }
    requires given { GivenSides S.failed K.failed F.failed reader desk }
    ensures { Comes F.reads F.has F.failed F.too_deep S.left S.ended S.failed K.held K.failed workers reader.keys.items (devices_of reader desk.entry) result }
{
    let is_resting = AtomicU64::new(0);
    let rests = &is_resting;
    thread::scope(
        thread::scope_env(),
        rt,
        move |scope|
            requires { IsSync R.row × IsSync G.row × IsSend J.row × IsSync J.row × IsSend S.row × IsSend F.row
                × (J.base ≡ []) × GivenSides S.failed K.failed F.failed reader desk }
            ensures { Comes F.reads F.has F.failed F.too_deep S.left S.ended S.failed K.held K.failed workers reader.keys.items (devices_of reader desk.entry) result }
        {
            serve_beside(
                scope, rt, alloc, workers, lookers, reader, desk, gate, rests,
            )
        },
    )
}

/// The ends of a new inbox, and the channel of jobs.
fn channels<J: Room>(alloc: Global) -> Result<(ReaderEnd<J>, DeskEnd<J>, Jobs<J>), NoMemory>
    ensures { IfOk result (λ c. (posted c.0 ≡ []) × (collected c.1 ≡ []) × (reader_on c.0 ≡ desk_on c.1)) }
{
    let (reader, desk) = inbox(alloc)?;
    let jobs = Jobs::new(alloc)?;
    Ok((reader, desk, jobs))
}

/// Makes the channels, and serves over a board.
fn run_over<
    J: Room + Send + Sync,
    S: Source + Send + Drop,
    K: Sink + Drop,
    F: Files + Send + Drop,
    G: Gate + Sync,
    R: Threads + Wait + Sync,
>(
    rt: &R,
    alloc: Global,
    workers: u8,
    front: &mut Front<J>,
    lookers: Vec<Looker<J>>,
    keys: Vec<OwnedText>,
    devices: Devices<S, K, F>,
    gate: &G,
) -> Ran<S, K, F>
    requires base { J.base ≡ [] }
    requires given { Given S.failed K.failed F.failed devices }
    ensures { Comes F.reads F.has F.failed F.too_deep S.left S.ended S.failed K.held K.failed workers keys.items devices result }
{
    let Ok((end, desk, jobs)) = channels(alloc) else {
        return unserved(RunFault::NoMemory, devices);
    };
    let Devices {
        input,
        output,
        files,
    } = devices;
    let reader = ReaderSide {
        input,
        files,
        keys,
        end,
    };
    let desk = DeskSide {
        end: desk,
        front,
        jobs,
        output,
    };
    serve_crew(rt, alloc, workers, lookers, reader, desk, gate)
}

/// The fault of a run at one of the board.
fn board_fault(fault: BoardFault) -> RunFault
    ensures { (result ≡ RunFault.NoMemory) ⊎ (result ≡ RunFault.NoPlace) }
{
    match fault {
        BoardFault::NoPlace => RunFault::NoPlace,
        BoardFault::NoMemory | BoardFault::Failed => RunFault::NoMemory,
    }
}

/// Opens the board, and serves over it.
fn run_opened<
    J: Room + Send + Sync,
    S: Source + Send + Drop,
    K: Sink + Drop,
    F: Files + Send + Drop,
    G: Gate + Sync,
    R: Threads + Wait + Sync,
>(
    rt: &R,
    alloc: Global,
    workers: u8,
    opened: Opened,
    keys: Vec<OwnedText>,
    devices: Devices<S, K, F>,
    gate: &G,
) -> Ran<S, K, F>
    requires book { opened.log.book ≡ J.book }
    requires base { J.base ≡ [] }
    requires given { Given S.failed K.failed F.failed devices }
    ensures { Comes F.reads F.has F.failed F.too_deep S.left S.ended S.failed K.held K.failed workers keys.items devices result }
{
    match open::<J, R>(rt, alloc, opened, Project::new(alloc)) {
        Ok((mut front, lookers)) => {
            let ran = run_over(rt, alloc, workers, &mut front, lookers, keys, devices, gate);
            front.close(rt);
            ran
        }
        Err(fault) => unserved(board_fault(fault), devices),
    }
}

/// Lists the files of the folder, and serves.
fn run_crew<
    S: Source + Send + Drop,
    K: Sink + Drop,
    F: Files + Send + Drop,
    G: Gate + Sync,
    R: Threads + Wait + Sync,
>(rt: &R, alloc: Global, workers: u8, mut devices: Devices<S, K, F>, gate: &G) -> Ran<S, K, F>
    requires given { Given S.failed K.failed F.failed devices }
    ensures { RanByThreads F.lists F.reads (F.has devices.files) devices.files (files_after F.failed F.too_deep result.files)
        (S.left devices.input) (source_after S.left S.ended S.failed result.input)
        workers (K.held devices.output) (sink_after K.held K.failed result.output) result.ended }
{
    match devices.files.list(alloc) {
        Ok(keys) => run_opened::<Brand, S, K, F, G, R>(
            rt,
            alloc,
            workers,
            Opened::new(),
            keys,
            devices,
            gate,
        ),
        Err(fault) => unserved(fault_of(fault), devices),
    }
}

/// Serves on one thread.
fn run_alone<S: Source, K: Sink, F: Files>(
    alloc: Global,
    mut input: S,
    mut output: K,
    mut files: F,
) -> Ran<S, K, F>
    requires sound { S.failed input ≡ false }
    requires works { K.failed output ≡ false }
    requires whole { F.failed files ≡ false }
    ensures { RanAlone F.lists F.reads (F.has files) files (files_after F.failed F.too_deep result.files)
        (S.left input) (source_after S.left S.ended S.failed result.input)
        (K.held output) (sink_after K.held K.failed result.output) result.ended }
{
    let ended = run_one(alloc, &mut input, &mut output, &mut files);
    Ran {
        ended,
        input,
        output,
        files,
    }
}

/// Serves with so many workers, at most eight: one thread reads, one is the desk, and the others answer. With none it is
/// `run_one`.
///
/// It loads the files of the folder, in order of key, and then reads the input up to `exit`, its end or a fault, and behind a
/// message that closes a document of the folder loads that file again. What is written is the frames of the replies and
/// notifications of some list of events: what was read, in order, and between that results that workers sent. Each result is
/// exactly its question's, and each edit keeps every response. Without a fault that list ends with `exit`, or with the end that the
/// source told. After a fault what was written is a front of these frames. No device may have failed before.
pub fn run<
    S: Source + Send + Drop,
    K: Sink + Drop,
    F: Files + Send + Drop,
    G: Gate + Sync,
    R: Threads + Wait + Sync,
>(rt: &R, alloc: Global, workers: u8, input: S, output: K, gate: &G, files: F) -> Ran<S, K, F>
    requires sound { S.failed input ≡ false }
    requires works { K.failed output ≡ false }
    requires whole { F.failed files ≡ false }
    ensures alone { workers ≡ 0 → RanAlone F.lists F.reads (F.has files) files (files_after F.failed F.too_deep result.files)
        (S.left input) (source_after S.left S.ended S.failed result.input)
        (K.held output) (sink_after K.held K.failed result.output) result.ended }
    ensures by_threads { 0 < workers → RanByThreads F.lists F.reads (F.has files) files (files_after F.failed F.too_deep result.files)
        (S.left input) (source_after S.left S.ended S.failed result.input)
        workers (K.held output) (sink_after K.held K.failed result.output) result.ended }
{
    if workers == 0 {
        return run_alone(alloc, input, output, files);
    }
    let devices = Devices {
        input,
        output,
        files,
    };
    run_crew(rt, alloc, workers, devices, gate)
}
