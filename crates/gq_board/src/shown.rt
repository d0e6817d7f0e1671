//! What the two copies of the project hold.
ghost use Rattle.std.specs.Prelude.{◌≡◌, IfOk};

use crate::history::{ChangeLog, Room};
use crossbeam_utils::rule::{Outcome, Protocol};
use gq_project::{DocChange, Project};
use gq_text::NoMemory;
use left_right::Absorb;
use std::alloc::{AllocError, Global};
use std::marker::PhantomData;

/// The project after a beginning of the history, that beginning, and how long it is.
pub(crate) struct Shown {
    pub alloc: Global,
    pub project: Project,
    pub count: u64,
    pub log: ChangeLog,
}

impl Drop for Shown {
    fn drop(self) {
        let Shown {
            alloc: _,
            project: _project,
            count: _,
            log: _log,
        } = self;
    }
}

/// One more change, with the beginning of the history that ends with it, and how long that is.
pub(crate) struct Next {
    pub change: DocChange,
    pub count: u64,
    pub log: ChangeLog,
}

impl Drop for Next {
    fn drop(self) {
        let Next {
            change: _change,
            count: _,
            log: _log,
        } = self;
    }
}

impl Shown {
    /// The project after no change.
    pub(crate) fn opened(alloc: Global, project: Project, log: &ChangeLog) -> Shown
        ensures { (result.project ≡ project) × (result.count ≡ 0) × (result.log ≡ log.now) }
    {
        Shown {
            alloc,
            project,
            count: 0,
            log: log.again(),
        }
    }
}

impl Absorb<Next> for Shown {
    type State = ([gq_project::Doc; 0], u64, ChangeLog);

    ghost use Rattle.gq_project.specs.Documents.{after_change};

    ghost state = { λ s. (s.project, s.count, s.log) };

    ghost applied = { λ s next. (after_change s.0 next.change, next.count, next.log) };

    fn absorb_first(&mut self, operation: &Next, _other: &Shown) -> Result<(), AllocError> {
        let Ok(change) = copy_change(self.alloc, &operation.change) else {
            return Err(AllocError);
        };
        let Ok(()) = self.project.change(change) else {
            return Err(AllocError);
        };
        self.count = operation.count;
        self.log = operation.log.again();
        Ok(())
    }
}

// Another change with the same document or key.
fn copy_change(alloc: Global, change: &DocChange) -> Result<DocChange, NoMemory>
    ensures { IfOk result (λ copy. copy ≡ change.now) }
{
    match change {
        DocChange::Put(doc) => Ok(DocChange::Put(doc.copied(alloc)?)),
        DocChange::Close(key) => Ok(DocChange::Close(key.copied(alloc)?)),
    }
}

/// The rule of the two copies: the project is the one after the changes of the room's history that it names.
pub(crate) struct BoardRule<J> {
    of: PhantomData<J>,
}

impl<J: Room> Protocol<Shown, ()> for BoardRule<J> {
    ghost use Rattle.gq_board.specs.Helping.Copies.{ShowsHistory};

    ghost holds = { λ x _. ShowsHistory J.book J.base x };

    ghost first = { tt };
}

impl<J: Room> Outcome<Shown, ()> for BoardRule<J> {
    ghost use Rattle.gq_board.specs.Helping.Copies.{ShowsHistory};

    ghost then = { λ _ _ y _. ShowsHistory J.book J.base y };
}
