//! What takes the changes and the jobs that a desk hands on.
ghost use Rattle.std.specs.Prelude.{◌≡◌, Bool, true, false, OnOk, OnErr, IsErrOf};
ghost use Rattle.gq_events.specs.Laws.{Handing, Published, Given};

use gq_events::Job;
use gq_project::DocChange;

/// Why what is handed on is not taken.
#[derive(Clone, Copy, Debug, PartialEq, Eq)]
pub enum HandsFault {
    /// A growth was refused.
    NoMemory,
    /// A job was handed back, or a change was refused before.
    Closed,
}

/// What takes changes of documents and jobs for workers. It states by a relation what each taking does to it, and what
/// each refusal does.
pub trait Hands {
    ghost takes: { Self → Handing → Self → Type 0 };

    ghost refuses: { Self → Handing → Self → Type 0 };

    /// Whether it takes no more.
    ghost closed: { Self → Bool };

    /// Takes a change that workers are to see.
    fn publish(&mut self, change: DocChange) -> Result<(), HandsFault>
        ensures ok { OnOk result (takes self.old (Published change) self.new) }
        ensures err { OnErr result (refuses self.old (Published change) self.new) }
        ensures flag { IsErrOf result HandsFault.Closed → closed self.new ≡ true };

    /// Takes a job that a worker is to do.
    fn job(&mut self, job: Job) -> Result<(), HandsFault>
        ensures ok { OnOk result (takes self.old (Given job) self.new) }
        ensures err { OnErr result (refuses self.old (Given job) self.new) }
        ensures flag { IsErrOf result HandsFault.Closed → closed self.new ≡ true };
}

/// Hands that do nothing, for a desk without workers. They refuse nothing, and nothing is asked of them.
#[derive(Clone, Copy, Debug, PartialEq, Eq)]
pub struct NoHands;

impl Hands for NoHands {
    ghost takes = { λ _ _ _. Unit {0} };

    ghost refuses = { λ _ _ _. ⊥ };

    ghost closed = { λ _. false };

    fn publish(&mut self, _change: DocChange) -> Result<(), HandsFault> {
        Ok(())
    }

    fn job(&mut self, _job: Job) -> Result<(), HandsFault> {
        Ok(())
    }
}
