//! A desk driven by events.
ghost use Rattle.std.specs.Prelude.{◌≡◌, ◌≤◌, ◌<◌, ◌^◌, ◌++◌, ◌⊎◌, ℕ, List, Option, Some, None, Ok, Err, length, IfOk, IfErr, IfSome, OnOk, OnErr, IsErrOf, true, false};
ghost use Rattle.std.specs.Io.KnownBytes.{Appends};
ghost use Rattle.std.specs.Iterator.{Yields};
ghost use Rattle.gq_rpc.specs.Encoding.{frame_of};
ghost use Rattle.gq_events.specs.declared.event.Event.{Event};
ghost use Rattle.gq_events.specs.Machine as machine;
ghost use Rattle.gq_events.specs.Rules.{Turn};
ghost use Rattle.gq_events.specs.Laws.{handing_of, handings};
ghost use Rattle.gq_desk.specs.Frames.{frame_in, frames_in, stop_in};
ghost use Rattle.gq_desk.specs.Standing.{StandsFor};
ghost use Rattle.gq_desk.specs.Driving as spec;
ghost use Rattle.gq_desk.specs.Helping.Turns as turns;

use crate::desk::{Desk, DeskFault};
use crate::hands::{Hands, HandsFault};
use gq_events::laws::{
    edits_are_safe, modified_at_change, results_are_their_questions, steps_exist,
    steps_tell_history,
};
use gq_events::{Event, Out};
use gq_rpc::{Outgoing, Sink, SinkFailed, encode, send};
use gq_text::NoMemory;
use std::alloc::Global;
use thiserror::Error;

/// Why driving ends early. It is printed as its name.
#[derive(Clone, Copy, Debug, PartialEq, Eq, Error)]
pub enum DriveFault {
    /// A growth was refused.
    #[error("NoMemory")]
    NoMemory,
    /// The sink has failed, or 2^60 events have come.
    #[error("Device")]
    Device,
    /// What takes changes and jobs takes no more.
    #[error("Closed")]
    Closed,
    /// More documents were loaded than there may be.
    #[error("TooMany")]
    TooMany,
    /// The desk had failed before.
    #[error("Failed")]
    Failed,
}

impl From<NoMemory> for DriveFault {
    ghost use Rattle.gq_desk.specs.declared.driving.DriveFault.TheVariants as fault;

    ghost from_gives = { λ _ e. e ≡ fault.NoMemory };

    fn from(_error: NoMemory) -> Self {
        DriveFault::NoMemory
    }
}

impl From<SinkFailed> for DriveFault {
    ghost use Rattle.gq_desk.specs.declared.driving.DriveFault.TheVariants as fault;

    ghost from_gives = { λ _ e. e ≡ fault.Device };

    fn from(_error: SinkFailed) -> Self {
        DriveFault::Device
    }
}

impl From<HandsFault> for DriveFault {
    ghost use Rattle.gq_desk.specs.Faults.{of_hands};

    ghost from_gives = { λ f e. e ≡ of_hands f };

    fn from(fault: HandsFault) -> Self {
        match fault {
            HandsFault::NoMemory => DriveFault::NoMemory,
            HandsFault::Closed => DriveFault::Closed,
        }
    }
}

impl From<DeskFault> for DriveFault {
    ghost use Rattle.gq_desk.specs.Faults.{of_desk};

    ghost from_gives = { λ f e. e ≡ of_desk f };

    fn from(fault: DeskFault) -> Self {
        match fault {
            DeskFault::NoMemory => DriveFault::NoMemory,
            DeskFault::Failed => DriveFault::Failed,
        }
    }
}

/// Adds the frame of a message.
fn add_message(alloc: Global, message: &Outgoing, bytes: &mut Vec<u8>) -> Result<(), NoMemory>
    ensures { OnOk result (bytes.new.items ≡ bytes.old.items ++ frame_of message.now) }
{
    let frame = encode(alloc, message)?;
    bytes.extend_from_slice(&frame)?;
    Ok(())
}

/// Adds the frame of what goes to the client.
fn add_frame(alloc: Global, out: &Out, bytes: &mut Vec<u8>) -> Result<(), NoMemory>
    ensures { OnOk result (bytes.new.items ≡ bytes.old.items ++ frame_in out.now) }
{
    match out {
        Out::Reply(message) => add_message(alloc, message, bytes),
        Out::Notify(message) => add_message(alloc, message, bytes),
        Out::Publish(_) => Ok(()),
        Out::Job(_) => Ok(()),
        Out::Stop(_) => Ok(()),
    }
}

/// The frames of the replies and notifications, in order.
fn write_frames(alloc: Global, outs: &[Out]) -> Result<Vec<u8>, NoMemory>
    ensures { IfOk result (λ bytes. bytes.items ≡ frames_in outs.now) }
{
    let mut bytes = Vec::new(alloc);
    for out in outs {
        add_frame(alloc, out, &mut bytes)?;
    }
    Ok(bytes)
}

/// The status of the first stop.
fn find_stop(outs: &[Out]) -> Option<u8>
    ensures { result ≡ stop_in outs.now }
{
    for out in outs {
        if let Out::Stop(status) = out {
            return Some(*status);
        }
    }
    None
}

/// Hands on what is for workers, if it is.
#[tactic(auto, using(crate::proofs::Chains::refused_first))]
fn hand_on<H: Hands>(out: Out, hands: &mut H) -> Result<(), HandsFault>
    ensures ok { OnOk result (spec.Chain H.takes hands.old (handing_of out) hands.new) }
    ensures err { OnErr result (spec.Refused H.takes H.refuses hands.old (handing_of out) hands.new) }
    ensures closed { IsErrOf result HandsFault.Closed → H.closed hands.new ≡ true }
{
    match out {
        Out::Publish(change) => hands.publish(change),
        Out::Job(job) => hands.job(job),
        Out::Reply(_) => Ok(()),
        Out::Notify(_) => Ok(()),
        Out::Stop(_) => Ok(()),
    }
}

/// Hands on the changes and the jobs, in order.
fn hand_over<H: Hands>(outs: Vec<Out>, hands: &mut H) -> Result<(), HandsFault>
    ensures ok { OnOk result (spec.Chain H.takes hands.old (handings outs.items) hands.new) }
    ensures err { OnErr result (spec.Refused H.takes H.refuses hands.old (handings outs.items) hands.new) }
    ensures closed { IsErrOf result HandsFault.Closed → H.closed hands.new ≡ true }
{
    for out in outs {
        hand_on(out, hands)?;
    }
    Ok(())
}

/// Writes all frames, and then hands on the changes and the jobs.
fn deliver<H: Hands, W: Sink>(
    alloc: Global,
    outs: Vec<Out>,
    hands: &mut H,
    writer: &mut W,
) -> Result<(), DriveFault>
    requires works { W.failed writer.old ≡ false }
    ensures ok { OnOk result (spec.Delivers H.takes hands.old (W.held writer.old) outs.items hands.new (W.held writer.new)) }
    ensures err { IfErr result (λ fault. spec.Breaks H.takes H.refuses hands.old (W.held writer.old) outs.items hands.new (W.held writer.new) fault) }
    ensures flag { W.failed writer.new ≡ turns.is_device_error result }
    ensures closed { IsErrOf result DriveFault.Closed → H.closed hands.new ≡ true }
    ensures no_load { IsErrOf result DriveFault.TooMany → ⊥ }
{
    let frames = write_frames(alloc, &outs)?;
    send(writer, &frames)?;
    hand_over(outs, hands)?;
    Ok(())
}

/// Takes one event, and answers the status where it stops the session. What is loaded stops it where it is one too many, and
/// that is a fault. After a fault the desk has failed.
fn take_turn<H: Hands, W: Sink>(
    alloc: Global,
    desk: &mut Desk,
    event: Event,
    hands: &mut H,
    writer: &mut W,
) -> Result<Option<u8>, DriveFault>
    requires next { IfSome desk.old (λ s. s.jobs.next < 2 ^ 62) }
    requires works { W.failed writer.old ≡ false }
    ensures ok { IfOk result (λ stop. turns.TakesTurn H.takes desk.old event hands.old (W.held writer.old) desk.new hands.new (W.held writer.new) stop) }
    ensures err { IfErr result (λ fault. (s : machine.State) → desk.old ≡ Some s →
        turns.BreaksTurn H.takes H.refuses s event hands.old (W.held writer.old) hands.new (W.held writer.new) fault) }
    ensures fails { OnErr result (desk.new ≡ None) }
    ensures flag { W.failed writer.new ≡ turns.is_device_error result }
    ensures closed { IsErrOf result DriveFault.Closed → H.closed hands.new ≡ true }
    ensures failed { IsErrOf result DriveFault.Failed → desk.old ≡ None }
{
    steps_exist();
    let is_load = event.is_load();
    let outs = desk.step(alloc, event)?;
    let stop = find_stop(&outs);
    match deliver(alloc, outs, hands, writer) {
        Ok(()) if is_load && stop.is_some() => {
            desk.fail();
            Err(DriveFault::TooMany)
        }
        Ok(()) => Ok(stop),
        Err(fault) => {
            desk.fail();
            Err(fault)
        }
    }
}

/// The next event, if one comes.
fn next_event<I: Iterator<Item = Event>>(events: &mut I) -> Option<Event>
    requires { I.can_next events.old }
    ensures steps { I.next_gives events.old result events.new }
    ensures can { IfSome result (λ _. I.can_next events.new) }
{
    events.next()
}

/// What holds of every list of events.
fn know_laws()
    ensures { turns.Known }
{
    steps_tell_history();
    results_are_their_questions();
    modified_at_change();
    edits_are_safe();
}

/// So many events are taken, at most.
const EVENTS_MAX: u64 = 1 << 60;

/// The status where the events end without a stop.
const END_STATUS: u8 = 1;

/// Drives a desk that has not failed.
fn drive_on<I: Iterator<Item = Event>, H: Hands, W: Sink>(
    alloc: Global,
    desk: &mut Desk,
    events: &mut I,
    hands: &mut H,
    writer: &mut W,
) -> Result<u8, DriveFault>
    requires stands { desk.old ≡ None → ⊥ }
    requires can { I.can_next events.old }
    requires next { IfSome desk.old (λ s. s.jobs.next ≤ 2 ^ 61) }
    requires works { W.failed writer.old ≡ false }
    ensures ok { IfOk result (λ status. (workers : ℕ) (earlier : List Turn) → StandsFor workers earlier desk.old →
        spec.Drives I.next_gives H.takes workers earlier events.old hands.old (W.held writer.old) events.new desk.new hands.new (W.held writer.new) status) }
    ensures err { IfErr result (λ fault. (workers : ℕ) (earlier : List Turn) → StandsFor workers earlier desk.old →
        spec.Fails I.next_gives H.takes H.refuses workers earlier events.old hands.old (W.held writer.old) events.new desk.new hands.new (W.held writer.new) fault) }
    ensures device { IsErrOf result DriveFault.Device → (W.failed writer.new ≡ true) ⊎ ((workers : ℕ) (earlier : List Turn) → StandsFor workers earlier desk.old →
        spec.TakesTooMany I.next_gives H.takes workers earlier events.old hands.old (W.held writer.old) events.new desk.new hands.new (W.held writer.new) DriveFault.Device) }
    ensures bound { IsErrOf result DriveFault.Device →
        (W.failed writer.new ≡ true) ⊎ ((taken : List Event) × Yields I.next_gives events.old taken events.new × (length taken ≡ spec.events_max)) }
    ensures flag { W.failed writer.new ≡ true → result ≡ Err DriveFault.Device }
    ensures closed { IsErrOf result DriveFault.Closed → H.closed hands.new ≡ true }
    ensures failed { IsErrOf result DriveFault.Failed → desk.old ≡ None }
{
    know_laws();
    for _taken in 0..EVENTS_MAX {
        let Some(event) = next_event(events) else {
            return Ok(END_STATUS);
        };
        if let Some(status) = take_turn(alloc, desk, event, hands, writer)? {
            return Ok(status);
        }
    }
    Err(DriveFault::Device)
}

/// Takes events up to the first stop, their end or a fault, and answers the stop's status, or 1 where none came; a document
/// too many that is loaded is a fault, at the stop that it comes to. What
/// the events tell behind those that the desk took before is written and handed on, in order; at a fault all of the
/// events before it, and of its own a front, and then the desk has failed. One that had failed takes none. The sink may
/// not have failed before.
pub fn drive<I: Iterator<Item = Event>, H: Hands, W: Sink>(
    alloc: Global,
    desk: &mut Desk,
    events: &mut I,
    hands: &mut H,
    writer: &mut W,
) -> Result<u8, DriveFault>
    requires can { I.can_next events.old }
    requires next { IfSome desk.old (λ s. s.jobs.next ≤ 2 ^ 61) }
    requires works { W.failed writer.old ≡ false }
    ensures ok { IfOk result (λ status. (workers : ℕ) (earlier : List Turn) → StandsFor workers earlier desk.old →
        spec.Drives I.next_gives H.takes workers earlier events.old hands.old (W.held writer.old) events.new desk.new hands.new (W.held writer.new) status) }
    ensures err { IfErr result (λ fault. (workers : ℕ) (earlier : List Turn) → StandsFor workers earlier desk.old →
        spec.Fails I.next_gives H.takes H.refuses workers earlier events.old hands.old (W.held writer.old) events.new desk.new hands.new (W.held writer.new) fault) }
    ensures device { IsErrOf result DriveFault.Device → (W.failed writer.new ≡ true) ⊎ ((workers : ℕ) (earlier : List Turn) → StandsFor workers earlier desk.old →
        spec.TakesTooMany I.next_gives H.takes workers earlier events.old hands.old (W.held writer.old) events.new desk.new hands.new (W.held writer.new) DriveFault.Device) }
    ensures bound { IsErrOf result DriveFault.Device →
        (W.failed writer.new ≡ true) ⊎ ((taken : List Event) × Yields I.next_gives events.old taken events.new × (length taken ≡ spec.events_max)) }
    ensures flag { W.failed writer.new ≡ true → result ≡ Err DriveFault.Device }
    ensures closed { IsErrOf result DriveFault.Closed → H.closed hands.new ≡ true }
    ensures failed { desk.old ≡ None → (result ≡ Err DriveFault.Failed) × (desk.new ≡ None) × (events.new ≡ events.old) × (hands.new ≡ hands.old) × (writer.new ≡ writer.old) }
    ensures only_failed { IsErrOf result DriveFault.Failed → desk.old ≡ None }
{
    if desk.has_failed() {
        return Err(DriveFault::Failed);
    }
    drive_on(alloc, desk, events, hands, writer)
}
