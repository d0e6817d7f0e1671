//! The one end that publishes.
ghost use Rattle.std.specs.Prelude.{◌≡◌, false, true, [], ◌∷◌, ◌++◌, drop, length, IfOk, IfErr, MatchBool, MatchResult};
ghost use Rattle.gq_project.specs.Documents.{after_change};
ghost use Rattle.gq_board.specs.declared.board.BoardFault.TheVariants.{Failed, NoMemory};
ghost use Rattle.gq_board.specs.Published.{docs_after};
ghost use Rattle.gq_board.specs.Helping.Copies.{IsNext};

use crate::board::BoardFault;
use crate::history::{Head, History, Opened, Room};
use crate::looker::{Looker, Told};
use crate::shown::{BoardRule, Next, Shown};
use core::mem::replace_with;
use gq_project::{DocChange, Project};
use left_right::writer::Writer;
use std::alloc::{AllocError, Global};
use std::marker::Model;
use std::sync::Wait;

/// How many lookers a board has.
pub(crate) const LOOKERS: usize = 8;

type BoardWriter<J> = Writer<Shown, Next, (), BoardRule<J>>;

/// Publishes changes. It owns the only writer, and is not `Drop`: end it by `close`. Contracts see the changes that were published, and whether
/// it has failed.
pub struct Front<J: Room> {
    writer: Writer<Shown, Next, (), BoardRule<J>>,
    head: Head<J>,
    history: History<J>,
    failed: bool,
}

impl<J: Room> Model for Front<J> {
    ghost use Rattle.std.specs.Prelude.{◌≡◌, List, Bool, false, [], drop};
    ghost use Rattle.gq_project.specs.declared.document.DocChange.{DocChange};
    ghost use Rattle.gq_board.specs.Published.{docs_after};

    ghost Value = { List DocChange × Bool };

    ghost view = { λ f. (f.history, f.failed) };

    ghost invariant = { λ f. (f.writer.desk.shown.value.project ≡ docs_after J.base f.history)
        × (f.failed ≡ false → drop f.writer.behind f.writer.log.items ≡ []) };
}

impl<J: Room> Front<J> {
    /// The front of a board of this project, with room for the lookers.
    pub(crate) fn over(
        alloc: Global,
        opened: Opened,
        project: Project,
    ) -> Result<Front<J>, BoardFault>
        requires book { opened.log.book ≡ J.book }
        requires base { project ≡ J.base }
        ensures { IfOk result (λ f. f ≡ ([], false)) }
    {
        let (head, history) = opened.named::<J>();
        let log = history.log();
        let Ok(copy) = project.copied(alloc) else {
            return Err(BoardFault::NoMemory);
        };
        let first = Shown::opened(alloc, project, &log);
        let second = Shown::opened(alloc, copy, &log);
        match Writer::new(alloc, first, second, LOOKERS) {
            Ok(writer) => Ok(Front {
                writer,
                head,
                history,
                failed: false,
            }),
            Err(_) => Err(BoardFault::NoMemory),
        }
    }

    /// A looker that knows what the front has published.
    pub(crate) fn looker(&self) -> Result<Looker<J>, BoardFault>
        ensures { IfOk result (λ l. l ≡ self.now.0) }
    {
        match self.writer.factory().reader() {
            Ok(reader) => Ok(Looker::new(reader, self.history.again())),
            Err(_) => Err(BoardFault::NoPlace),
        }
    }

    /// Publishes the change, or nothing. After an error it publishes nothing more. It waits for lookers that still look at what was published
    /// before the last call.
    pub fn publish<R: Wait>(&mut self, rt: &R, change: DocChange) -> Result<(), BoardFault>
        ensures published { MatchResult result (λ _. self.new ≡ (self.old.0 ++ change ∷ [], false)) (λ _. self.new ≡ (self.old.0, true)) }
        ensures fault { IfErr result (λ e. MatchBool self.old.1 (e ≡ Failed) (e ≡ NoMemory)) }
    {
        if self.failed {
            return Err(BoardFault::Failed);
        }
        self.failed = true;
        let (longer, next) = self.recorded(change)?;
        let Ok(()) = self.writer.append(next) else {
            return Err(BoardFault::NoMemory);
        };
        let done = replace_with(
            &mut self.writer,
            rt,
            |writer: BoardWriter<J>, rt: &R| -> (BoardWriter<J>, Result<(), AllocError>)
                requires { (n : _) × (drop writer.behind writer.log.items ≡ n ∷ []) × (n.log.book ≡ J.book) × (n.count ≡ length n.log.log)
                    × (docs_after J.base n.log.log ≡ after_change writer.desk.shown.value.project n.change) }
            { writer.publish_as::<BoardRule<J>, R>(rt) },
        );
        let Ok(()) = done else {
            return Err(BoardFault::NoMemory);
        };
        self.history = longer;
        self.failed = false;
        Ok(())
    }

    // The history with one more change, and what the copies take in for it.
    fn recorded(&self, change: DocChange) -> Result<(History<J>, Next), BoardFault>
        ensures { MatchResult result (λ r. (r.0 ≡ self.now.0 ++ change ∷ []) × IsNext J.book r.0 change r.1) (λ e. e ≡ NoMemory) }
    {
        if self.history.len() == u64::MAX {
            return Err(BoardFault::NoMemory);
        }
        let mut longer = self.history.again();
        if !longer.add(&self.head, &change) {
            return Err(BoardFault::NoMemory);
        }
        let (count, log) = (longer.len(), longer.log());
        Ok((longer, Next { change, count, log }))
    }

    /// What is published now. It takes no memory.
    pub fn tell(&self) -> Told<J>
        ensures { result ≡ self.now.0 }
    {
        Told::new(self.history.again())
    }

    /// Ends the board. It waits for lookers that look.
    pub fn close<R: Wait>(self, rt: &R) {
        let Front {
            writer,
            head: _head,
            history: _history,
            failed: _,
        } = self;
        writer.take(rt);
    }
}
