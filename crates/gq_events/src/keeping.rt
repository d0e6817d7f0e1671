//! What is kept of the documents, where no worker is to answer.
ghost use Rattle.std.specs.Prelude.{◌≡◌, ◌≢◌, ℕ, Bool, List, [], true, false, None, Some, IfOk, IfSome, OnOk, is_some, find, option_map, Contains};
ghost use Rattle.gq_edit.specs.Workspace.{AreTexts};
ghost use Rattle.gq_project.specs.declared.document.Doc.{Doc};
ghost use Rattle.gq_project.specs.Documents.{has_key};
ghost use Rattle.gq_events.specs.Documents.{docs_of};
ghost use Rattle.gq_events.specs.Keeping.{IsKeptOf, AgreeBut};
ghost use Rattle.gq_events.specs.Rules.{Session, changed_by, session_after};
ghost use Rattle.gq_events.specs.Tasks.{Answers, is_superseded};

use crate::bringing::bring;
use crate::documents::SessionDocuments;
use crate::effect::Effect;
use crate::event::{Answer, Task};
use crate::work::find_answer;
use gq_kept::Kept;
use gq_text::{NoMemory, OwnedText};
use std::alloc::Global;
use std::marker::Model;

/// What is kept of documents, from the last task that was answered, and the keys of those that changed since. So no text has
/// to be compared with what is kept.
///
/// Contracts see the documents that it was made of, and the keys.
pub struct Keeping {
    kept: Option<Kept>,
    /// In ascending order, each key once.
    changed: Vec<OwnedText>,
}

impl Drop for Keeping {
    fn drop(self) {
        let Keeping {
            kept: _kept,
            changed: _changed,
        } = self;
    }
}

impl Model for Keeping {
    ghost use Rattle.std.specs.Prelude.{option_map};
    ghost use Rattle.gq_events.specs.Keeping.{KeepingOf};

    ghost Value = { KeepingOf };

    ghost view = { λ k. record { documents = option_map (λ kept. kept.documents) k.kept; changed = k.changed.items } };
}

impl Keeping {
    /// Nothing is kept. It takes no memory.
    pub fn new(alloc: Global) -> Keeping
        ensures { result.documents ≡ None }
    {
        Keeping {
            kept: None,
            changed: Vec::new(alloc),
        }
    }

    /// Drops what is kept. It takes no memory.
    pub fn forget(&mut self)
        ensures { self.new.documents ≡ None }
    {
        self.kept = None;
    }

    /// Notes that the document of that key may be another one from now on. Where there is no memory for the note, what is
    /// kept is dropped.
    fn note_change(&mut self, alloc: Global, key: &str)
        ensures { (old new : List Doc) → ((other : List ℕ) → other ≢ key.now → find (has_key other) new ≡ find (has_key other) old)
            → IsKeptOf self.old old → IsKeptOf self.new new }
    {
        if note(alloc, &mut self.changed, key).is_err() {
            self.kept = None;
        }
    }

    /// Follows an event of this effect.
    pub fn follow(&mut self, alloc: Global, effect: &Effect)
        ensures { (s : Session) (refused : Bool) → IsKeptOf self.old (docs_of s.documents)
            → IsKeptOf self.new (docs_of (session_after s effect.now (changed_by s effect.now refused)).documents) }
    {
        if let Effect::Changes(change) = effect {
            self.note_change(alloc, change.key());
        }
    }

    /// Brings what is kept to the documents as they are now. Of a document that did not change no copy is made, and its text
    /// is not read again. Where nothing is kept, all are copied and read. Where memory is refused, some of that is done.
    fn bring_to(&mut self, alloc: Global, documents: &SessionDocuments) -> Result<(), NoMemory>
        requires { IsKeptOf self.old (docs_of documents.now) }
        ensures ok { OnOk result (self.new.documents ≡ Some (docs_of documents.now)) }
        ensures kept { IsKeptOf self.new (docs_of documents.now) }
    {
        match &mut self.kept {
            Some(kept) => bring(alloc, documents, &self.changed, kept)?,
            None => self.kept = Some(made_of(alloc, documents)?),
        }
        self.changed.clear();
        Ok(())
    }

    /// The answer to a task about the documents.
    fn find_answer(
        &mut self,
        alloc: Global,
        documents: &SessionDocuments,
        task: &Task,
    ) -> Result<Answer, NoMemory>
        requires { IsKeptOf self.old (docs_of documents.now) }
        ensures answer { IfOk result (λ answer. Answers (docs_of documents.now) task.now answer) }
        ensures made { IfOk result (λ answer. is_superseded answer ≡ false) }
        ensures kept { IsKeptOf self.new (docs_of documents.now) }
    {
        documents.texts_fit();
        self.bring_to(alloc, documents)?;
        answer_by(alloc, &mut self.kept, task)
    }

    /// The same. Want of memory is an answer, too.
    pub(crate) fn answer(
        &mut self,
        alloc: Global,
        documents: &SessionDocuments,
        task: &Task,
    ) -> Answer
        requires { IsKeptOf self.old (docs_of documents.now) }
        ensures answer { Answers (docs_of documents.now) task.now result }
        ensures made { is_superseded result ≡ false }
        ensures kept { IsKeptOf self.new (docs_of documents.now) }
    {
        match self.find_answer(alloc, documents, task) {
            Ok(answer) => answer,
            Err(NoMemory) => Answer::NoMemory,
        }
    }
}

/// Adds the key to those that changed, where it is not among them.
fn note(alloc: Global, changed: &mut Vec<OwnedText>, key: &str) -> Result<(), NoMemory>
    ensures kept { OnOk result ((other : List ℕ) → Contains changed.old.items other → Contains changed.new.items other) }
    ensures noted { OnOk result (Contains changed.new.items key.now) }
{
    match changed.binary_search_by(|other| other.as_str().cmp(&key)) {
        Ok(_) => Ok(()),
        Err(at) => {
            changed.insert(at, OwnedText::from_str(alloc, key)?)?;
            Ok(())
        }
    }
}

/// What is kept of the documents, all of which are copied and read.
fn made_of(alloc: Global, documents: &SessionDocuments) -> Result<Kept, NoMemory>
    ensures { IfOk result (λ kept. kept.documents ≡ docs_of documents.now) }
{
    let project = documents.project(alloc)?;
    let kept = Kept::of(alloc, &project)?;
    Ok(kept)
}

/// The answer to a task about the documents that are kept.
fn answer_by(alloc: Global, kept: &mut Option<Kept>, task: &Task) -> Result<Answer, NoMemory>
    requires some { is_some kept.old ≡ true }
    requires texts { IfSome kept.old (λ k. AreTexts k.documents) }
    ensures answer { IfOk result (λ answer. IfSome kept.old (λ k. Answers k.documents task.now answer)) }
    ensures made { IfOk result (λ answer. is_superseded answer ≡ false) }
    ensures documents { option_map (λ k. k.documents) kept.new ≡ option_map (λ k. k.documents) kept.old }
{
    match kept {
        Some(now) => {
            let answer = find_answer(alloc, now, task)?;
            now.let_go();
            Ok(answer)
        }
        None => unreachable!(),
    }
}
