//! What the definitions mean.
ghost use Rattle.gq_events.specs.Laws as spec;
ghost use Rattle.gq_events.specs.Lifecycle as lifecycle;
ghost use Rattle.gq_events.specs.Headline.{EditsAreSafe};

use gq_replies::laws::{answered_edits_are_safe, answers_respond};

/// Step by step, a desk puts out what the list of events tells, behind whatever it took before.
pub fn steps_tell_history()
    ensures { spec.StepsTellHistory }
{}

/// What earlier events put out is the same, whatever comes behind them.
pub fn outputs_go_on()
    ensures { spec.OutputsGoOn }
{}

/// From each state an event leads on.
pub fn steps_exist()
    ensures { spec.StepsExist }
{}

/// With no workers each event is answered in its own step.
pub fn answered_at_once()
    ensures { spec.AnsweredAtOnce }
{}

/// A job is decided by the first event after its own that decides it.
pub fn decided_at_first()
    ensures { spec.DecidedAtFirst }
{}

/// A job is decided once.
pub fn decided_once()
    ensures { spec.DecidedOnce }
{}

/// What a worker made of a job decides one job at most.
pub fn one_is_decided()
    ensures { spec.OneIsDecided }
{}

/// No two questions that are pending have one id.
pub fn pending_have_own_ids()
    ensures { spec.PendingHaveOwnIds }
{}

/// What a worker answers, where it is taken, is the defined answer about the documents as they were when it was asked.
pub fn answers_are_defined()
    ensures { spec.AnswersAreDefined }
{}

/// Each result that is replied is exactly its question's, about the documents as they were when it was asked, whatever
/// events come between; or it tells a client that takes no code actions that there is none.
pub fn results_are_their_questions()
    ensures { spec.ResultsAreTheirQuestions }
{}

/// Each edit that is replied is exactly its question's, about the documents as they were when it was asked, and keeps
/// what every operation fetches.
pub fn edits_are_safe()
    ensures { EditsAreSafe }
{
    answered_edits_are_safe();
}

/// That the content was modified is told at a change alone.
pub fn modified_at_change()
    ensures { spec.ModifiedAtChange }
{
    answers_respond();
}

/// After a stop nothing is put out.
pub fn silent_after_stop()
    ensures { spec.SilentAfterStop }
{}

/// Jobs are handed on in order of their numbers, each once.
pub fn handed_in_order()
    ensures { spec.HandedInOrder }
{}

/// At most 64 jobs are out.
pub fn out_is_bounded()
    ensures { spec.OutIsBounded }
{}

/// In the step of an event its change is handed on, where it is one and there are workers, and then the jobs that the list
/// of events tells.
pub fn handed_on_in_its_step()
    ensures { spec.HandedOnInItsStep }
{}

/// With no workers nothing is handed on.
pub fn nothing_is_handed_to_none()
    ensures { spec.NothingIsHandedToNone }
{}

/// What is published of a change is what it changes.
pub fn changes_are_published()
    ensures { spec.ChangesArePublished }
{}

/// The documents stand in order of key, their texts have at most 4 MiB, and lost ones are empty.
pub fn documents_are_kept()
    ensures { spec.DocumentsAreKept }
{}

/// Event by event, a session comes to what is told of all that came.
pub fn sessions_are_told()
    ensures { lifecycle.SessionsAreTold }
{}

/// A session has stopped where `exit` or the end of the input came.
pub fn stops_are_told()
    ensures { lifecycle.StopsAreTold }
{}

/// The session at a place is the fold of the events before it.
pub fn sessions_are_folds()
    ensures { lifecycle.SessionsAreFolds }
{}

/// So do those that were loaded and are behind open ones, and none of these is open.
pub fn documents_behind_are_kept()
    ensures { spec.DocumentsBehindAreKept }
{}

/// A session has stopped only where `exit`, the end of the input or a document too many came.
pub fn stops_have_causes()
    ensures { lifecycle.StopsHaveCauses }
{}
