//! A project, and whether it is known to be valid.
ghost use Rattle.std.specs.Prelude.{◌≡◌, true, false, None, IfSome, IfNone, OnOk, OnErr, find};
ghost use Rattle.gq_project.specs.Documents.{has_key, with_doc, without};
ghost use Rattle.gq_rules.specs.Validity.{IsValid};
ghost use Rattle.gq_kept.specs.Helping.Judgements.{judged_view};

use gq_project::{Doc, Project};
use gq_rules::Valid;
use gq_text::NoMemory;
use std::alloc::Global;
use std::marker::Model;
use std::mem;

/// A project, by what is known of its validity.
#[derive(Drop)]
pub(crate) enum Held {
    /// Nothing is known.
    Unjudged(Project),
    Valid(Valid),
    Invalid(Project),
}

/// A project that is judged or not.
#[derive(Drop)]
pub(crate) struct Judged {
    held: Held,
}

impl Model for Judged {
    ghost use Rattle.gq_kept.specs.KeptOf.{JudgedOf};

    ghost Value = { JudgedOf };

    ghost use Rattle.gq_kept.specs.Helping.Judgements.{judged_view, IsJudgement};

    ghost view = { λ j. judged_view j.held };

    ghost invariant = { λ j. ∥ IsJudgement j.held ∥₁ };
}

impl Judged {
    /// A project of which nothing is known.
    pub(crate) fn unjudged(project: Project) -> Judged
        ensures documents { result.documents ≡ project }
        ensures judged { result.is_judged ≡ false }
    {
        Judged {
            held: Held::Unjudged(project),
        }
    }

    pub(crate) fn project(&self) -> &Project
        ensures { result.now ≡ self.now.documents }
    {
        match &self.held {
            Held::Unjudged(project) => project,
            Held::Valid(valid) => valid.project(),
            Held::Invalid(project) => project,
        }
    }

    pub(crate) fn is_judged(&self) -> bool
        ensures { result ≡ self.now.is_judged }
    {
        match &self.held {
            Held::Unjudged(_) => false,
            Held::Valid(_) => true,
            Held::Invalid(_) => true,
        }
    }

    /// The project, where it is valid.
    pub(crate) fn valid(&self) -> Option<&Valid>
        requires { self.now.is_judged ≡ true }
        ensures some { IfSome result (λ valid. valid.now ≡ self.now.documents) }
        ensures none { IfNone result (IsValid self.now.documents → ⊥) }
    {
        match &self.held {
            Held::Unjudged(_) => None,
            Held::Valid(valid) => Some(valid),
            Held::Invalid(_) => None,
        }
    }

    /// Adds the document, or replaces the one of its key, which takes no memory. Nothing is known from then on.
    pub(crate) fn put(&mut self, alloc: Global, doc: Doc) -> Result<(), NoMemory>
        ensures ok { OnOk result (self.new ≡ record { documents = with_doc self.old.documents doc; is_judged = false }) }
        ensures err { OnErr result (self.new ≡ self.old) }
        ensures refused { OnErr result (find (has_key doc.key) self.old.documents ≡ None) }
    {
        let held = mem::replace(&mut self.held, Held::Unjudged(Project::new(alloc)));
        let (held, done) = put_in(held, doc);
        self.held = held;
        done
    }

    /// Takes the document of that key out. Nothing is known from then on.
    pub(crate) fn take(&mut self, alloc: Global, key: &str)
        ensures { self.new ≡ record { documents = without self.old.documents key.now; is_judged = false } }
    {
        let mut project = self.open(alloc);
        let _ = project.take(key);
        self.held = Held::Unjudged(project);
    }

    /// From now on the project is known to be valid.
    pub(crate) fn set_valid(&mut self, alloc: Global)
        requires { ∥ IsValid self.old.documents ∥₁ }
        ensures { self.new ≡ record { documents = self.old.documents; is_judged = true } }
    {
        let project = self.open(alloc);
        self.held = Held::Valid(Valid::known(project));
    }

    /// From now on the project is known not to be valid.
    pub(crate) fn set_invalid(&mut self, alloc: Global)
        requires { IsValid self.old.documents → ⊥ }
        ensures { self.new ≡ record { documents = self.old.documents; is_judged = true } }
    {
        let project = self.open(alloc);
        self.held = Held::Invalid(project);
    }

    /// Takes the project out, and leaves an empty one. It takes no memory.
    fn open(&mut self, alloc: Global) -> Project
        ensures { result ≡ self.old.documents }
    {
        let held = mem::replace(&mut self.held, Held::Unjudged(Project::new(alloc)));
        project_in(held)
    }
}

/// The project itself.
fn project_in(held: Held) -> Project
    ensures { result ≡ (judged_view held).documents }
{
    match held {
        Held::Unjudged(project) => project,
        Held::Valid(valid) => valid.into_project(),
        Held::Invalid(project) => project,
    }
}

/// Adds the document, or replaces the one of its key. Nothing is known from then on.
fn put_in(held: Held, doc: Doc) -> (Held, Result<(), NoMemory>)
    ensures ok { OnOk result.1 (judged_view result.0 ≡ record { documents = with_doc (judged_view held).documents doc; is_judged = false }) }
    ensures err { OnErr result.1 (result.0 ≡ held) }
    ensures refused { OnErr result.1 (find (has_key doc.key) (judged_view held).documents ≡ None) }
{
    match held {
        Held::Unjudged(mut project) => {
            let done = project.put(doc);
            (Held::Unjudged(project), done)
        }
        Held::Valid(valid) => {
            let mut project = valid.into_project();
            match project.put(doc) {
                Ok(()) => (Held::Unjudged(project), Ok(())),
                Err(NoMemory) => (Held::Valid(Valid::known(project)), Err(NoMemory)),
            }
        }
        Held::Invalid(mut project) => match project.put(doc) {
            Ok(()) => (Held::Unjudged(project), Ok(())),
            Err(NoMemory) => (Held::Invalid(project), Err(NoMemory)),
        },
    }
}
