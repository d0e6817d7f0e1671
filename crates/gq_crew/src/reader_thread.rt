//! The reader's thread: how it is started, and what is promised of what it leaves.
ghost use Rattle.std.specs.Prelude.{◌≡◌, MatchResult};
ghost use Rattle.std.specs.Thread.{IsSync};
ghost use Rattle.gq_crew.specs.Helping.Sides.{GivenReader, ReaderComes, ReaderTurns};

use crate::reader_side::{ReaderCame, ReaderSide, read_side};
use gq_board::Room;
use gq_reader::Files;
use gq_rpc::Source;
use std::alloc::Global;
use std::snapshot::Snapshot;
use std::sync::Wait;
use std::sync::atomic::{AtomicU64, Ordering};
use std::thread::{Promise, PromisedHandle, Scope, Threads};

/// What a reader is told by this number: to rest.
const RESTS: u64 = 1;

/// What comes of a reader: what it leaves once it has read, or itself where it was told to rest.
pub type ReaderTurn<J, S, F> = Result<ReaderCame<J, S, F>, ReaderSide<J, S, F>>;

/// The promise that what comes is of this reader.
#[derive(Drop)]
pub struct OfReader<J: Room, S, F>(pub Snapshot<ReaderSide<J, S, F>>);

impl<J: Room, S: Source, F: Files> Promise<ReaderTurn<J, S, F>> for OfReader<J, S, F> {
    ghost use Rattle.gq_crew.specs.Helping.Sides.{ReaderTurns};

    ghost kept_by = { λ p turn. ReaderTurns F.reads F.has F.failed F.too_deep S.left S.ended S.failed p.0.value turn };
}

/// Reads, unless it is told to rest.
fn read_or_rest<J: Room, S: Source, F: Files, R: Wait>(
    rt: &R,
    alloc: Global,
    side: ReaderSide<J, S, F>,
    rests: &AtomicU64,
) -> ReaderTurn<J, S, F>
    requires given { GivenReader S.failed F.failed side }
    ensures { ReaderTurns F.reads F.has F.failed F.too_deep S.left S.ended S.failed side result }
{
    if rests.load(Ordering::SeqCst) == RESTS {
        Err(side)
    } else {
        Ok(read_side(rt, alloc, side))
    }
}

/// Starts the reader's thread. Where none can be made the reader is told to rest, and comes back.
pub fn start_reader<
    's,
    E,
    J: Room + Send + Sync + 's,
    S: Source + Send + Drop + 's,
    F: Files + Send + Drop + 's,
    R: Threads + Wait + Sync + 's,
>(
    scope: &Scope<'s, E>,
    rt: &'s R,
    alloc: Global,
    side: ReaderSide<J, S, F>,
    rests: &'s AtomicU64,
) -> Result<PromisedHandle<ReaderTurn<J, S, F>, OfReader<J, S, F>>, ReaderTurn<J, S, F>>
    requires given { GivenReader S.failed F.failed side }
    ensures { MatchResult result (λ thread. thread.promise.0.value ≡ side) (λ turn. ReaderTurns F.reads F.has F.failed F.too_deep S.left S.ended S.failed side turn) }
{
    let promise = OfReader(Snapshot::of(&side));
    let started = scope.spawn_with(
        promise,
        move || -> ReaderTurn<J, S, F>
            requires { GivenReader S.failed F.failed side }
            ensures { ReaderTurns F.reads F.has F.failed F.too_deep S.left S.ended S.failed side result }
        { read_or_rest(rt, alloc, side, rests) },
    );
    match started {
        Ok(thread) => Ok(thread),
        Err(refused) => {
            rests.store(RESTS, Ordering::SeqCst);
            Err((refused.value)())
        }
    }
}

/// Waits for the reader's thread, and gives what the reader leaves. One that rested reads now.
pub fn join_reader<J: Room, S: Source, F: Files, R: Threads + Wait>(
    rt: &R,
    alloc: Global,
    thread: PromisedHandle<ReaderTurn<J, S, F>, OfReader<J, S, F>>,
) -> ReaderCame<J, S, F>
    requires given { GivenReader S.failed F.failed thread.promise.0.value }
    ensures { ReaderComes F.reads F.has F.failed F.too_deep S.left S.ended S.failed thread.promise.0.value result }
{
    match thread.join(rt) {
        Ok(came) => came,
        Err(side) => read_side(rt, alloc, side),
    }
}
