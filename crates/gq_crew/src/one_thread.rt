//! A run: the frames that come in, and the frames of the replies.
ghost use Rattle.std.specs.Prelude.{◌≡◌, Option, true, false, Some};
ghost use Rattle.gq_crew.specs.Runs.{Ran, RunsListed, source_after, files_after, sink_after};
ghost use Rattle.gq_crew.specs.Helping.Ends.{ended_as};
ghost use Rattle.gq_reader.specs.Reader.{seen_in, unread};
ghost use Rattle.gq_crew.specs.Helping.Ends as spec;
ghost use Rattle.gq_crew.specs.Helping.Claims.{AnswersHold};
ghost use Rattle.gq_events.specs.Machine.{start};

use gq_desk::{Desk, DriveFault, NoHands, drive};
use gq_events::laws::{edits_are_safe, modified_at_change, results_are_their_questions};
use gq_reader::loads::fault_of;
use gq_reader::{Files, Loads, Pending, Reader, RunFault};
use gq_rpc::{Sink, Source};
use gq_text::OwnedText;
use std::alloc::Global;

/// The status of a run that a fault ended.
const FAULT_STATUS: u8 = 3;

/// How a run ended.
#[derive(Clone, Copy, Debug, PartialEq, Eq)]
pub struct Ended {
    /// The status of the process: that of `exit`; 1 where the input ended without it; 3 after a fault.
    pub status: u8,
    pub fault: Option<RunFault>,
}

/// The end at a fault.
pub(crate) fn failed(fault: RunFault) -> Ended
    ensures { result ≡ record { status = 3; fault = Some fault } }
{
    Ended {
        status: FAULT_STATUS,
        fault: Some(fault),
    }
}

/// The end with a status, or at the fault that was told.
pub(crate) fn stopped(status: u8, told: Option<RunFault>) -> Ended
    ensures { result ≡ ended_as status told }
{
    match told {
        Some(fault) => failed(fault),
        None => Ended {
            status,
            fault: None,
        },
    }
}

/// The fault of a run at one of driving. A desk that is new has not failed.
pub(crate) fn fault_at(fault: DriveFault) -> RunFault
    ensures { result ≡ spec.fault_at fault }
{
    match fault {
        DriveFault::NoMemory => RunFault::NoMemory,
        DriveFault::TooMany => RunFault::TooMany,
        DriveFault::Closed => RunFault::Closed,
        DriveFault::Device | DriveFault::Failed => RunFault::Device,
    }
}

/// What holds of turns that are answered.
fn know_claims()
    ensures { AnswersHold }
{
    results_are_their_questions();
    modified_at_change();
    edits_are_safe();
}

/// Serves what a reader gives of which nothing was read, by a desk that is a new one.
fn serve<S: Source, F: Files, K: Sink>(
    alloc: Global,
    desk: &mut Desk,
    reader: &mut Reader<'_, '_, '_, S, F>,
    output: &mut K,
) -> Ended
    requires unread { seen_in S.left S.ended S.failed reader.old ≡ unread (seen_in S.left S.ended S.failed reader.old).source }
    requires untold { reader.old.loads.now.told ≡ None }
    requires sound { S.failed reader.old.input.now ≡ false }
    requires whole { F.failed reader.old.files.now ≡ false }
    requires works { K.failed output.old ≡ false }
    requires new { desk.old ≡ Some (start 0) }
    ensures same_input { reader.new.input.ghost_name ≡ reader.old.input.ghost_name }
    ensures same_files { reader.new.files.ghost_name ≡ reader.old.files.ghost_name }
    ensures runs { RunsListed F.reads (F.has reader.old.files.now) reader.old.files.now reader.old.loads.now.keys.items
        (files_after F.failed F.too_deep reader.new.files.now)
        (S.left reader.old.input.now) (seen_in S.left S.ended S.failed reader.new).source
        (K.held output.old) (sink_after K.held K.failed output.new) result }
    ensures source { S.failed reader.new.input.now ≡ true → result.fault ≡ Some RunFault.Device }
    ensures files { F.failed reader.new.files.now ≡ true → result.fault ≡ Some RunFault.Device }
    ensures sink { K.failed output.new ≡ true → result.fault ≡ Some RunFault.Device }
{
    know_claims();
    match drive(alloc, desk, reader, &mut NoHands, output) {
        Ok(status) => stopped(status, reader.told()),
        Err(fault) => failed(fault_at(fault)),
    }
}

/// Serves what comes behind a listing of the files.
fn run_listed<S: Source, F: Files, K: Sink>(
    alloc: Global,
    keys: Vec<OwnedText>,
    input: &mut S,
    output: &mut K,
    files: &mut F,
) -> Ended
    requires sound { S.failed input.old ≡ false }
    requires works { K.failed output.old ≡ false }
    requires whole { F.failed files.old ≡ false }
    ensures runs { RunsListed F.reads (F.has files.old) files.old keys.items
        (files_after F.failed F.too_deep files.new)
        (S.left input.old) (source_after S.left S.ended S.failed input.new)
        (K.held output.old) (sink_after K.held K.failed output.new) result }
    ensures source { S.failed input.new ≡ true → result.fault ≡ Some RunFault.Device }
    ensures files { F.failed files.new ≡ true → result.fault ≡ Some RunFault.Device }
    ensures sink { K.failed output.new ≡ true → result.fault ≡ Some RunFault.Device }
{
    let mut pending = Pending::new(alloc);
    let mut loads = Loads::new(alloc, keys);
    let mut reader = Reader {
        input,
        files,
        pending: &mut pending,
        loads: &mut loads,
    };
    let mut desk = Desk::new(alloc, 0);
    let ended = serve(alloc, &mut desk, &mut reader, output);
    drop(desk);
    ended
}

/// Loads the files of a folder, in order of key. Then it reads the input up to `exit`, its end or a fault, and writes the frames
/// of the replies and notifications that a desk without workers puts out for these files and for the bodies that stand in the
/// input, in order, however the reads cut it; what one read completes is answered before the next. Behind a message that closes a
/// document of the folder it loads that file again. Each result is exactly its question's, and each edit keeps every response.
/// After a fault of memory or of the sink what was written is a front of these frames. No device may have failed before.
pub fn run_one<S: Source, K: Sink, F: Files>(
    alloc: Global,
    input: &mut S,
    output: &mut K,
    files: &mut F,
) -> Ended
    requires sound { S.failed input.old ≡ false }
    requires works { K.failed output.old ≡ false }
    requires whole { F.failed files.old ≡ false }
    ensures runs { Ran F.lists F.reads (F.has files.old) files.old
        (files_after F.failed F.too_deep files.new)
        (S.left input.old) (source_after S.left S.ended S.failed input.new)
        (K.held output.old) (sink_after K.held K.failed output.new) result }
    ensures source { S.failed input.new ≡ true → result.fault ≡ Some RunFault.Device }
    ensures sink { K.failed output.new ≡ true → result.fault ≡ Some RunFault.Device }
    ensures files { F.failed files.new ≡ true → result.fault ≡ Some RunFault.Device }
{
    match files.list(alloc) {
        Ok(keys) => run_listed(alloc, keys, input, output, files),
        Err(fault) => failed(fault_of(fault)),
    }
}
