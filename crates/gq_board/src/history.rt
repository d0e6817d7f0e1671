//! The one history of the published changes, of which all ends have seen a beginning. Proofs see its changes; what runs is how many there are.
ghost use Rattle.std.specs.Prelude.{◌≡◌, ◌↔◌, ◌+◌, ◌<◌, ◌^◌, ◌++◌, ◌∷◌, ◌⊎◌, [], length, MatchBool, IsTrue};
ghost use mathlib.Core.List.{IsPrefix};
ghost use Rattle.gq_board.specs.Helping.Counted.{head_of};

use gq_project::DocChange;
use logbook::{Gain, Offer, Plain, Play, Rule, Seen, Start, Word};
use std::marker::{Brand, Model, PhantomData};

/// A beginning of the history that was seen. It has no bytes.
pub(crate) type ChangeLog = Seen<DocChange, u64, HistoryRule>;

/// The rule of the history: its word is its length.
pub(crate) struct HistoryRule;

impl Rule<DocChange, u64> for HistoryRule {
    ghost use Rattle.std.specs.Prelude.{[]};
    ghost use base.Fml.{ftrue};
    ghost use Rattle.gq_board.specs.Helping.Counted.{IsCounted};

    ghost holds = { λ cells log. IsCounted cells log };

    ghost first = { [] };

    ghost hinted = { λ n log. Unit {0} };

    ghost shows = { λ log. [] };

    ghost keeps = { λ names log. ftrue };

    ghost moves = { λ ask before after answer. Unit {0} };
}

/// Callers trade nothing.
pub(crate) struct Nothing;

impl Gain<DocChange, u64> for Nothing {
    ghost use base.Fml.{ftrue};

    ghost after = { λ names about answer. ftrue };
}

/// A step that adds a change.
pub(crate) struct Add;

impl Play<DocChange, u64> for Add {
    ghost use Rattle.gq_board.specs.Helping.Counted.{Adds};

    ghost then = { Adds };
}

/// What a step asks for: the change.
impl Plain<DocChange, DocChange, u64> for Add {
    ghost use Rattle.std.specs.Prelude.{None};

    ghost ask = { λ change. change };

    ghost state = { λ change. None };
}

/// Which board it is, and what it opens with. Each run picks them.
pub trait Room {
    ghost use Rattle.std.specs.Prelude.{List};
    ghost use Rattle.logbook.specs.Pages.{Book};
    ghost use Rattle.gq_project.specs.declared.document.Doc.{Doc};

    // The history's name.
    ghost book: { Book };

    // The documents that it opens with.
    ghost base: { List Doc };
}

impl Room for Brand {
    ghost use Rattle.std.specs.Prelude.{[]};

    ghost book = { record { number = 0; log_name = 0; cells_name = 0 } };

    ghost base = { [] };
}

/// A history with no change, which has no name yet.
pub struct Opened {
    head: Word<DocChange, u64, HistoryRule>,
    log: ChangeLog,
    ghost empty: { log.log ≡ [] },
    ghost head_is: { head ≡ head_of log.book },
}

impl Drop for Opened {
    fn drop(self) {
        let Opened {
            head: _head,
            log: _log,
        } = self;
    }
}

impl Opened {
    /// A history of its own, other than all others. It takes no memory.
    pub fn new() -> Opened {
        let (log, mut first, _second) = Seen::open(Start::alone(), 0, 0);
        Opened {
            head: Word::tracked(0, &mut first),
            log,
        }
    }

    /// The history's word under a name, and the beginning that has nothing.
    pub(crate) fn named<J: Room>(self) -> (Head<J>, History<J>)
        requires { self.log.book ≡ J.book }
        ensures { result.1 ≡ [] }
    {
        let Opened { head, log } = self;
        let of = PhantomData;
        (
            Head {
                head,
                of: PhantomData,
            },
            History { count: 0, log, of },
        )
    }
}

/// The one right to add to the history: the word that is its length.
pub(crate) struct Head<J: Room> {
    head: Word<DocChange, u64, HistoryRule>,
    of: PhantomData<J>,
    ghost head_is: { head ≡ head_of J.book },
}

impl<J: Room> Drop for Head<J> {
    fn drop(self) {
        let Head { head: _head, of: _ } = self;
    }
}

/// A beginning of the history. Contracts see its changes.
pub(crate) struct History<J: Room> {
    count: u64,
    log: ChangeLog,
    of: PhantomData<J>,
}

impl<J: Room> Drop for History<J> {
    fn drop(self) {
        let History {
            count: _,
            log: _log,
            of: _,
        } = self;
    }
}

impl<J: Room> Model for History<J> {
    ghost use Rattle.std.specs.Prelude.{◌≡◌, List, length};
    ghost use Rattle.gq_project.specs.declared.document.DocChange.{DocChange};

    ghost Value = { List DocChange };

    ghost view = { λ h. h.log.log };

    ghost invariant = { λ h. (h.count ≡ length h.log.log) × (h.log.book ≡ J.book) };
}

impl<J: Room> History<J> {
    /// How many changes it has.
    pub(crate) fn len(&self) -> u64
        ensures { result ≡ length self.now }
    {
        self.count
    }

    /// The same beginning once more. It takes no memory.
    pub(crate) fn again(&self) -> History<J>
        ensures { result ≡ self.now }
    {
        History {
            count: self.count,
            log: self.log.again(),
            of: PhantomData,
        }
    }

    /// The longer of the two, which the other begins.
    pub(crate) fn longer(&self, other: &History<J>) -> History<J>
        ensures this { IsPrefix self.now result }
        ensures that { IsPrefix other.now result }
        ensures either { (result ≡ self.now) ⊎ (result ≡ other.now) }
    {
        let mut both = self.log.again();
        both.learn(&other.log);
        if self.count < other.count {
            other.again()
        } else {
            self.again()
        }
    }

    /// Whether this one has all that the other has.
    pub(crate) fn has_all(&self, other: &History<J>) -> bool
        ensures { IsTrue result ↔ IsPrefix other.now self.now }
    {
        let mut both = self.log.again();
        both.learn(&other.log);
        other.count <= self.count
    }

    /// Whether both are the same beginning.
    pub(crate) fn is(&self, other: &History<J>) -> bool
        ensures { IsTrue result ↔ (self.now ≡ other.now) }
    {
        let mut both = self.log.again();
        both.learn(&other.log);
        other.count == self.count
    }

    /// The bare token, of no bytes.
    pub(crate) fn log(&self) -> ChangeLog
        ensures { (result.book ≡ J.book) × (result.log ≡ self.now) }
    {
        self.log.again()
    }

    /// From a bare token and its length.
    pub(crate) fn of(count: u64, log: &ChangeLog) -> History<J>
        requires { (log.now.book ≡ J.book) × (count ≡ length log.now.log) }
        ensures { result ≡ log.now.log }
    {
        History {
            count,
            log: log.again(),
            of: PhantomData,
        }
    }

    /// Adds a change to all that it has, and says whether it did. Where it has the whole history, it does.
    pub(crate) fn add(&mut self, head: &Head<J>, change: &DocChange) -> bool
        requires room { length self.old + 1 < 2 ^ 64 }
        ensures { MatchBool result (self.new ≡ self.old ++ change.now ∷ []) (Unit {0}) }
    {
        let mut offer: Offer<DocChange, u64, HistoryRule, Nothing> = self
            .log
            .plain::<Nothing, DocChange, Add>(change);
        let mut pen = self.log.no_pen();
        let count = self.count;
        let found = head
            .head
            .compare_exchange::<Add, Nothing>(
                count,
                count + 1,
                &mut self.log,
                &mut offer,
                &mut pen,
            );
        self.count = if found == count { count + 1 } else { found };
        found == count
    }
}
