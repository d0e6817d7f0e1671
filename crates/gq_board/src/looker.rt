//! The ends that look.
ghost use Rattle.std.specs.Prelude.{◌≡◌, ◌↔◌, ◌⊎◌, IsTrue, MatchResult};
ghost use mathlib.Core.List.{IsPrefix};
ghost use Rattle.gq_board.specs.Published.{docs_after};

use crate::history::{History, Room};
use crate::shown::{BoardRule, Shown};
use gq_project::Project;
use left_right::reader::{Reader, Reading};
use std::marker::Model;

/// What had been published when it was told. It takes no memory. Contracts see the changes.
pub struct Told<J: Room> {
    history: History<J>,
}

impl<J: Room> Drop for Told<J> {
    fn drop(self) {
        let Told { history: _history } = self;
    }
}

impl<J: Room> Model for Told<J> {
    ghost use Rattle.std.specs.Prelude.{List};
    ghost use Rattle.gq_project.specs.declared.document.DocChange.{DocChange};

    ghost Value = { List DocChange };

    ghost view = { λ t. t.history };
}

impl<J: Room> Told<J> {
    pub(crate) fn new(history: History<J>) -> Told<J>
        ensures { result ≡ history }
    {
        Told { history }
    }

    /// Whether both tell the same changes.
    pub fn is(&self, other: &Told<J>) -> bool
        ensures { IsTrue result ↔ (self.now ≡ other.now) }
    {
        self.history.is(&other.history)
    }

    /// The same once more. It takes no memory.
    pub fn again(&self) -> Told<J>
        ensures { result ≡ self.now }
    {
        Told {
            history: self.history.again(),
        }
    }
}

/// A looker that is not looking. Contracts see the most changes that it has seen or learnt of.
pub struct Looker<J: Room> {
    reader: Reader<Shown, (), BoardRule<J>>,
    known: History<J>,
}

impl<J: Room> Drop for Looker<J> {
    fn drop(self) {
        let Looker {
            reader: _reader,
            known: _known,
        } = self;
    }
}

impl<J: Room> Model for Looker<J> {
    ghost use Rattle.std.specs.Prelude.{List};
    ghost use Rattle.gq_project.specs.declared.document.DocChange.{DocChange};

    ghost Value = { List DocChange };

    ghost view = { λ l. l.known };
}

/// A looker with the project that it sees. Contracts see the changes that made it. End it by `leave`.
pub struct Seen<J: Room> {
    reading: Reading<Shown, (), BoardRule<J>>,
    known: History<J>,
}

impl<J: Room> Model for Seen<J> {
    ghost use Rattle.std.specs.Prelude.{◌≡◌, List};
    ghost use Rattle.gq_project.specs.declared.document.DocChange.{DocChange};
    ghost use Rattle.gq_board.specs.Published.{docs_after};

    ghost Value = { List DocChange };

    ghost view = { λ s. s.known };

    ghost invariant = { λ s. s.reading.part.value.project ≡ docs_after J.base s.known };
}

impl<J: Room> Looker<J> {
    pub(crate) fn new(reader: Reader<Shown, (), BoardRule<J>>, known: History<J>) -> Looker<J>
        ensures { result ≡ known }
    {
        Looker { reader, known }
    }

    /// From now on it sees no less than was told. It takes no memory, and waits for nobody.
    pub fn learn(&mut self, told: &Told<J>)
        ensures mine { IsPrefix self.old self.new }
        ensures told { IsPrefix told.now self.new }
        ensures either { (self.new ≡ self.old) ⊎ (self.new ≡ told.now) }
    {
        self.known = self.known.longer(&told.history);
    }

    /// What it has seen or learnt of. It takes no memory.
    pub fn tell(&self) -> Told<J>
        ensures { result ≡ self.now }
    {
        Told::new(self.known.again())
    }

    /// The project after changes that were published, among them all that it has seen or learnt of. The looker comes back where the front is
    /// closed. It waits for nobody.
    pub fn look(self) -> Result<Seen<J>, Looker<J>>
        ensures { MatchResult result (λ s. IsPrefix self s) (λ l. l ≡ self) }
    {
        let Looker { reader, known } = self;
        match reader.enter_as::<BoardRule<J>>() {
            Ok(reading) => {
                let shown = reading.get();
                let found = History::of(shown.count, &shown.log);
                if found.has_all(&known) {
                    Ok(Seen {
                        reading,
                        known: found,
                    })
                } else {
                    Err(Looker {
                        reader: reading.leave(),
                        known,
                    })
                }
            }
            Err(reader) => Err(Looker { reader, known }),
        }
    }
}

impl<J: Room> Seen<J> {
    /// The project, for as long as the look lasts.
    pub fn project(&self) -> &Project
        ensures { result.now ≡ docs_after J.base self.now }
    {
        &self.reading.get().project
    }

    /// Ends the look.
    pub fn leave(self) -> Looker<J>
        ensures { result ≡ self }
    {
        let Seen { reading, known } = self;
        Looker {
            reader: reading.leave(),
            known,
        }
    }
}
