//! What is known of a project, kept from question to question.
ghost use Rattle.std.specs.Prelude.{◌≡◌, ◌<◌, ◌≤◌, true, false, Some, None, IfOk, IfSome, IfNone, OnOk, OnErr, find, length, remove, slice_set};
ghost use Rattle.std.specs.List.{insert};
ghost use Rattle.std.specs.Option.{unwrap_or};
ghost use Rattle.gq_tree.specs.Readings.{readings_view, shared_view};
ghost use Rattle.gq_parse.specs.Parsed.{AreParsed, IsParsed};
ghost use Rattle.gq_project.specs.Documents.{IsInOrder, has_key, with_doc, without};
ghost use Rattle.gq_project.specs.Helping.Places.{IsPlaceOf, IsGapFor};
ghost use Rattle.gq_index.specs.Indexed.{IsIndexOfProject};
ghost use Rattle.gq_known.specs.Known.{IsKnown};
ghost use Rattle.gq_rules.specs.Validity.{IsInvalid, IsReportOf, IsValid};
ghost use Rattle.gq_kept.specs.Helping.Gone.{AreGone, AreDropped, IsPut, ArePut};

use crate::alike::changes_types;
use crate::by_document::ByDocument;
use crate::held::all_parts;
use crate::indexed::{forget_unless, stays_indexed};
use crate::judged::Judged;
use crate::judging::report_if_any;
use crate::pieces::{reading_among, reading_by};
use crate::places::{come_before, place_or_gap};
use crate::typed::{
    Typed, Was, defines_types_at, has_types, is_retyped, keeps_names, last_of_types, made_of,
    retype, typed_less, typed_more,
};
use crate::unseen::{is_forgotten, keep_unseen};
use gq_by_file::laws::numbers_of_entries_are_unseen;
use gq_index::Index;
use gq_known::{Known, Learned};
use gq_laws::places::{
    places_of_types_do_not_matter_to_rules, places_of_types_do_not_matter_to_types,
    same_tokens_define_alike, types_look_alike,
};
use gq_parse::Piece;
use gq_parse::laws::one_tree;
use gq_project::{Doc, Project};
use gq_rules::laws::no_project_is_valid_and_invalid;
use gq_rules::{Report, Valid};
use gq_text::{NoMemory, OwnedText};
use gq_tree::Parsed;
use std::alloc::Global;
use std::marker::Model;
use std::mem;
use std::sync::Arc;

/// So many documents come or go one by one, each with a type system that is made anew.
const FEW: usize = 4;

/// A project, what its documents read as, and their type system; its index and its validity too, once they were asked for.
///
/// Contracts see it as the list of its documents, whether it is indexed, and whether it is known if it is valid.
pub struct Kept {
    judged: Judged,
    /// What the documents read as, one for each, in their order.
    readings: Vec<Arc<Parsed>>,
    typed: Typed,
    /// What is known of documents, each by itself and together.
    found: ByDocument,
    index: Option<Index>,
    past: Past,
}

impl Drop for Kept {
    fn drop(self) {
        let Kept {
            judged: _judged,
            readings: _readings,
            typed: _typed,
            found: _found,
            index: _index,
            past: _past,
        } = self;
    }
}

/// What the last change replaced, which takes a while to drop.
#[derive(Drop)]
struct Past {
    types: Option<Was>,
    reading: Option<Arc<Parsed>>,
    index: Option<Index>,
}

impl Model for Kept {
    ghost use Rattle.std.specs.Prelude.{is_some};
    ghost use Rattle.gq_kept.specs.KeptOf.{KeptOf};

    ghost Value = { KeptOf };

    ghost use Rattle.gq_kept.specs.Helping.Facts.{AreKept};

    ghost view = { λ k. record { documents = k.judged.documents; is_indexed = is_some k.index; is_judged = k.judged.is_judged } };

    ghost invariant = { λ k. AreKept k.judged.documents k.readings.items k.typed k.found k.index };
}

impl Kept {
    /// What is learned of a project by reading a copy of it. It is neither indexed nor judged.
    pub fn of(alloc: Global, project: &Project) -> Result<Kept, NoMemory>
        ensures { IfOk result (λ kept. kept ≡ record { documents = project.now; is_indexed = false; is_judged = false }) }
    {
        let Learned {
            readings,
            types,
            has_schema,
        } = Learned::of(alloc, project)?;
        let copy = project.copied(alloc)?;
        Ok(Kept {
            judged: Judged::unjudged(copy),
            readings,
            typed: Typed { types, has_schema },
            found: ByDocument::new(alloc),
            index: None,
            past: Past {
                types: None,
                reading: None,
                index: None,
            },
        })
    }

    /// The project.
    pub fn project(&self) -> &Project
        ensures { result.now ≡ self.now.documents }
    {
        self.judged.project()
    }

    /// All that is known without an index, lent.
    pub fn known(&self) -> Known<'_>
        ensures project { result.project.now ≡ self.now.documents }
        ensures known { ∥ IsKnown result ∥₁ }
    {
        Known {
            project: self.judged.project(),
            readings: &self.readings,
            types: &self.typed.types,
            has_schema: self.typed.has_schema,
        }
    }

    /// Whether the project has this document, with the same URI, version and text.
    pub fn has_same(&self, doc: &Doc) -> bool
        ensures { result ≡ true → find (has_key doc.now.key) self.now.documents ≡ Some doc.now }
    {
        match self.judged.project().get(doc.key.as_str()) {
            Some(kept) => kept == doc,
            None => false,
        }
    }

    /// Adds the document, or replaces the one of its key, and reads its text alone; where the piece is one of this document,
    /// with the same key and text, its tree is taken in place of reading. The project is not judged then, and keeps its index only where the
    /// document has no operation and no fragment, before and after. What it replaces stays until the next such change or `let_go`.
    pub fn replace_file(
        &mut self,
        alloc: Global,
        doc: Doc,
        piece: Option<Arc<Piece>>,
    ) -> Result<(), NoMemory>
        ensures ok { OnOk result (self.new.documents ≡ with_doc self.old.documents doc) }
        ensures err { OnErr result (self.new ≡ self.old) }
    {
        let reading = reading_by(alloc, &doc, piece)?;
        self.put_read(alloc, doc, reading)
    }

    /// Adds the document, whose text reads so, or replaces the one of its key.
    fn put_read(&mut self, alloc: Global, doc: Doc, reading: Arc<Parsed>) -> Result<(), NoMemory>
        requires { ∥ IsParsed doc.text (shared_view reading) ∥₁ }
        ensures ok { OnOk result (self.new.documents ≡ with_doc self.old.documents doc) }
        ensures err { OnErr result (self.new ≡ self.old) }
    {
        match place_or_gap(self.judged.project().documents(), doc.key.as_str()) {
            Ok(at) => self.replace_at(alloc, at, doc, reading),
            Err(at) => self.insert_at(alloc, at, doc, reading),
        }
    }

    /// Replaces the document at that place, which has the same key.
    fn replace_at(
        &mut self,
        alloc: Global,
        at: usize,
        doc: Doc,
        reading: Arc<Parsed>,
    ) -> Result<(), NoMemory>
        requires place { IsPlaceOf (λ other. other.key) doc.key self.old.documents at }
        requires parsed { ∥ IsParsed doc.text (shared_view reading) ∥₁ }
        ensures ok { OnOk result (self.new.documents ≡ with_doc self.old.documents doc) }
        ensures err { OnErr result (self.new ≡ self.old) }
    {
        one_tree();
        numbers_of_entries_are_unseen();
        same_tokens_define_alike();
        types_look_alike();
        places_of_types_do_not_matter_to_rules();
        places_of_types_do_not_matter_to_types();
        let readings = self.readings.as_slice();
        let stays = stays_indexed(readings, at, &reading);
        let is_made = is_retyped(readings, at, &reading);
        let documents = self.judged.project().documents();
        let text = doc.text.as_str();
        let changes = changes_types(alloc, documents, at, &readings[at], text, is_made);
        let same = keeps_names(is_made, changes);
        let fields = &mut self.found.fields;
        let made = retype(alloc, readings, at, &reading, same, &mut self.typed, fields)?;
        self.judged.put(alloc, doc)?;
        let unseen = keep_unseen(&made.marks, &mut self.found);
        let forgets = is_forgotten(changes, unseen);
        self.found.replace(alloc, at, &reading, forgets);
        let reading = Some(write_over(&mut self.readings, at, reading));
        let index = forget_unless(stays, &mut self.index);
        self.past = Past {
            types: made.was,
            reading,
            index,
        };
        Ok(())
    }

    /// Drops what the last change replaced, which takes a part of the time that the change took. Nothing that is known changes.
    pub fn let_go(&mut self)
        ensures { self.new ≡ self.old }
    {
        self.past = Past {
            types: None,
            reading: None,
            index: None,
        };
    }

    /// Puts in a document whose key no document has.
    fn insert_at(
        &mut self,
        alloc: Global,
        at: usize,
        doc: Doc,
        reading: Arc<Parsed>,
    ) -> Result<(), NoMemory>
        requires gap { IsGapFor (λ other. other.key) doc.key self.old.documents at }
        requires parsed { ∥ IsParsed doc.text (shared_view reading) ∥₁ }
        ensures ok { OnOk result (self.new.documents ≡ with_doc self.old.documents doc) }
        ensures err { OnErr result (self.new ≡ self.old) }
    {
        numbers_of_entries_are_unseen();
        let changes_types = has_types(&reading);
        let made = typed_more(alloc, &self.readings, at, &reading, &self.typed)?;
        let shared = Arc::try_clone(&reading)?;
        match put_in(
            alloc,
            &mut self.judged,
            &mut self.readings,
            at,
            doc,
            reading,
        ) {
            Ok(()) => {
                settle_if_some(&mut self.typed, made);
                self.found.make_room(alloc, at, &shared, changes_types);
                forget(&mut self.index);
                Ok(())
            }
            Err(NoMemory) => Err(NoMemory),
        }
    }

    /// Takes out the document of that key. The project is then neither indexed nor judged. Where there is none, all stays.
    pub fn drop_file(&mut self, alloc: Global, key: &str) -> Result<(), NoMemory>
        ensures ok { OnOk result (self.new.documents ≡ without self.old.documents key.now) }
        ensures err { OnErr result (self.new ≡ self.old) }
        ensures absent { find (has_key key.now) self.old.documents ≡ None → self.new ≡ self.old }
    {
        match place_or_gap(self.judged.project().documents(), key) {
            Ok(at) => self.drop_at(alloc, at, key),
            Err(_) => Ok(()),
        }
    }

    /// Takes out the document at that place, which has that key.
    fn drop_at(&mut self, alloc: Global, at: usize, key: &str) -> Result<(), NoMemory>
        requires { IsPlaceOf (λ other. other.key) key.now self.old.documents at }
        ensures ok { OnOk result (self.new.documents ≡ without self.old.documents key.now) }
        ensures err { OnErr result (self.new ≡ self.old) }
    {
        numbers_of_entries_are_unseen();
        let changes_types = defines_types_at(&self.readings, at);
        let made = typed_less(alloc, &self.readings, at, &self.typed)?;
        self.judged.take(alloc, key);
        take_out(&mut self.readings, at);
        settle(&mut self.typed, made);
        self.found.close_room(alloc, at, changes_types);
        forget(&mut self.index);
        Ok(())
    }

    /// Makes the project that of these documents: what is the same is not read again, other documents are replaced by copies,
    /// and those that are no longer there are dropped. Of a document of which there is a piece among `pieces`, in ascending
    /// order of keys, the tree is taken; pieces of the texts that are read are added to `parsed`, where there is memory for
    /// them. Where memory is refused otherwise, some of that is done.
    pub fn bring_to(
        &mut self,
        alloc: Global,
        project: &Project,
        pieces: &[Arc<Piece>],
        parsed: &mut Vec<Arc<Piece>>,
    ) -> Result<(), NoMemory>
        ensures { OnOk result (self.new.documents ≡ project.now) }
    {
        if self.shifted_by(project) > FEW {
            return self.remake(alloc, project, pieces, parsed);
        }
        let gone = gone(alloc, self.project().documents(), project)?;
        self.drop_all(alloc, &gone)?;
        self.put_all(alloc, project.documents(), pieces, parsed)?;
        let _in_order = self.project().documents();
        Ok(())
    }

    /// How many of the documents that come or go stand before one that defines types, so that its number changes with each.
    fn shifted_by(&self, project: &Project) -> usize {
        let documents = self.judged.project().documents();
        let last = last_of_types(&self.typed.types);
        let come = come_before(documents, project.documents(), last);
        come.saturating_add(come_before(project.documents(), documents, last))
    }

    /// Makes the project that of these documents at once: one type system is made, what is the same is not read again, and of faults
    /// nothing is known then. Want of memory leaves all as it was.
    fn remake(
        &mut self,
        alloc: Global,
        project: &Project,
        pieces: &[Arc<Piece>],
        parsed: &mut Vec<Arc<Piece>>,
    ) -> Result<(), NoMemory>
        ensures ok { OnOk result (self.new.documents ≡ project.now) }
        ensures err { OnErr result (self.new ≡ self.old) }
    {
        let readings = self.readings_of(alloc, project.documents(), pieces, parsed)?;
        let typed = made_of(alloc, &readings)?;
        let copy = project.copied(alloc)?;
        *self = Kept {
            judged: Judged::unjudged(copy),
            readings,
            typed,
            found: ByDocument::new(alloc),
            index: None,
            past: Past {
                types: None,
                reading: None,
                index: None,
            },
        };
        Ok(())
    }

    /// What these documents read as, one for each, in their order.
    fn readings_of(
        &self,
        alloc: Global,
        documents: &[Doc],
        pieces: &[Arc<Piece>],
        parsed: &mut Vec<Arc<Piece>>,
    ) -> Result<Vec<Arc<Parsed>>, NoMemory>
        ensures { IfOk result (λ readings. ∥ AreParsed documents.now (readings_view readings.items) ∥₁) }
    {
        let mut readings = Vec::with_capacity(alloc, documents.len())?;
        for doc in documents {
            readings.push(self.reading_of(alloc, doc, pieces, parsed)?)?;
        }
        Ok(readings)
    }

    /// What the document reads as: as it did, where it is the same; else its text is read, or the piece of it is taken.
    fn reading_of(
        &self,
        alloc: Global,
        doc: &Doc,
        pieces: &[Arc<Piece>],
        parsed: &mut Vec<Arc<Piece>>,
    ) -> Result<Arc<Parsed>, NoMemory>
        ensures { IfOk result (λ reading. ∥ IsParsed doc.now.text (shared_view reading) ∥₁) }
    {
        let documents = self.judged.project().documents();
        let readings = self.readings.as_slice();
        if let Ok(at) = place_or_gap(documents, doc.key.as_str()) {
            if documents[at].text == doc.text {
                return Ok(Arc::try_clone(&readings[at])?);
            }
        }
        reading_among(alloc, doc, pieces, parsed)
    }

    /// Takes out the documents of these keys.
    fn drop_all(&mut self, alloc: Global, keys: &[OwnedText]) -> Result<(), NoMemory>
        ensures { OnOk result (AreDropped self.old.documents keys.now self.new.documents) }
    {
        for key in keys {
            self.drop_file(alloc, key.as_str())?;
        }
        Ok(())
    }

    /// Adds copies of these documents, or replaces those of their keys, where they are not the same.
    fn put_all(
        &mut self,
        alloc: Global,
        documents: &[Doc],
        pieces: &[Arc<Piece>],
        parsed: &mut Vec<Arc<Piece>>,
    ) -> Result<(), NoMemory>
        requires { IsInOrder documents.now }
        ensures { OnOk result (ArePut self.old.documents documents.now self.new.documents) }
    {
        for doc in documents {
            self.put_copy(alloc, doc, pieces, parsed)?;
        }
        Ok(())
    }

    /// Adds a copy of the document, or replaces the one of its key, where that is not the same.
    fn put_copy(
        &mut self,
        alloc: Global,
        doc: &Doc,
        pieces: &[Arc<Piece>],
        parsed: &mut Vec<Arc<Piece>>,
    ) -> Result<(), NoMemory>
        ensures { OnOk result (IsPut self.old.documents doc.now self.new.documents) }
    {
        if self.has_same(doc) {
            return Ok(());
        }
        let reading = reading_among(alloc, doc, pieces, parsed)?;
        let copy = doc.copied(alloc)?;
        self.put_read(alloc, copy, reading)?;
        Ok(())
    }

    /// Makes the index, where there is none, of what is kept for it of each document. No tree is gone over but those of documents that came or changed.
    pub fn make_index(&mut self, alloc: Global) -> Result<(), NoMemory>
        ensures ok { OnOk result (self.new ≡ record self.old { is_indexed = true }) }
        ensures err { OnErr result (self.new ≡ self.old) }
    {
        if self.index.is_none() {
            let documents = self.judged.project().documents();
            let parts = all_parts(alloc, &self.readings, &mut self.found.parts)?;
            let index = Index::of_parts(alloc, documents, &parts)?;
            self.index = Some(index);
        }
        Ok(())
    }

    /// The index.
    pub fn index(&self) -> &Index
        requires { self.now.is_indexed ≡ true }
        ensures { ∥ IsIndexOfProject self.now.documents result.now ∥₁ }
    {
        self.index.as_ref().unwrap()
    }

    /// What is told of the project, if something is.
    fn told(&mut self, alloc: Global) -> Result<Option<Report>, NoMemory>
        ensures same { self.new ≡ self.old }
        ensures valid { IfOk result (λ report. ∥ IfNone report (IsValid self.old.documents) ∥₁) }
        ensures invalid { IfOk result (λ report. ∥ IfSome report (λ r. IsReportOf self.old.documents r.found.items × IsInvalid self.old.documents) ∥₁) }
    {
        let known = Known {
            project: self.judged.project(),
            readings: &self.readings,
            types: &self.typed.types,
            has_schema: self.typed.has_schema,
        };
        report_if_any(alloc, known, &mut self.found)
    }

    /// The report on the project, which is then judged.
    pub fn report(&mut self, alloc: Global) -> Result<Report, NoMemory>
        ensures report { IfOk result (λ report. ∥ IsReportOf self.old.documents report.found.items ∥₁) }
        ensures ok { OnOk result (self.new ≡ record self.old { is_judged = true }) }
        ensures err { OnErr result (self.new ≡ self.old) }
    {
        no_project_is_valid_and_invalid();
        match self.told(alloc)? {
            Some(report) => {
                self.judged.set_invalid(alloc);
                Ok(report)
            }
            None => {
                self.judged.set_valid(alloc);
                Ok(Report {
                    found: Vec::new(alloc),
                })
            }
        }
    }

    /// Finds out whether the project is valid, where that is not known.
    pub fn judge(&mut self, alloc: Global) -> Result<(), NoMemory>
        ensures ok { OnOk result (self.new ≡ record self.old { is_judged = true }) }
        ensures err { OnErr result (self.new ≡ self.old) }
    {
        if !self.judged.is_judged() {
            let _ = self.report(alloc)?;
        }
        Ok(())
    }

    /// Finds out whether the project is valid, and makes its index where it is, as refactorings want it.
    pub fn study(&mut self, alloc: Global) -> Result<(), NoMemory>
        ensures documents { self.new.documents ≡ self.old.documents }
        ensures judged { OnOk result (self.new.is_judged ≡ true) }
        ensures indexed { OnOk result (∥ IsValid self.old.documents ∥₁ → self.new.is_indexed ≡ true) }
    {
        self.judge(alloc)?;
        if self.valid().is_some() {
            self.make_index(alloc)?;
        }
        Ok(())
    }

    /// The project, where it is valid.
    pub fn valid(&self) -> Option<&Valid>
        requires { self.now.is_judged ≡ true }
        ensures some { IfSome result (λ valid. valid.now ≡ self.now.documents) }
        ensures none { IfNone result (IsValid self.now.documents → ⊥) }
    {
        self.judged.valid()
    }
}

/// Adds a document whose key no document has, and what it reads as, at that place.
fn put_in(
    alloc: Global,
    judged: &mut Judged,
    readings: &mut Vec<Arc<Parsed>>,
    at: usize,
    doc: Doc,
    reading: Arc<Parsed>,
) -> Result<(), NoMemory>
    requires { at ≤ length readings.old.items }
    ensures document { OnOk result (judged.new ≡ record { documents = with_doc judged.old.documents doc; is_judged = false }) }
    ensures reading { OnOk result (readings.new.items ≡ insert readings.old.items at reading) }
    ensures same_documents { OnErr result (judged.new ≡ judged.old) }
    ensures same_readings { OnErr result (readings.new.items ≡ readings.old.items) }
{
    if readings.insert(at, reading).is_err() {
        return Err(NoMemory);
    }
    if judged.put(alloc, doc).is_err() {
        take_out(readings, at);
        return Err(NoMemory);
    }
    Ok(())
}

/// Writes what a document reads as over what is at that place, and answers what was there.
fn write_over(readings: &mut Vec<Arc<Parsed>>, at: usize, reading: Arc<Parsed>) -> Arc<Parsed>
    requires { at < length readings.old.items }
    ensures { readings.new.items ≡ slice_set readings.old.items at reading }
{
    mem::replace(&mut readings[at], reading)
}

/// Takes out what is at that place.
fn take_out(readings: &mut Vec<Arc<Parsed>>, at: usize)
    requires { at < length readings.old.items }
    ensures { readings.new.items ≡ remove readings.old.items at }
{
    let _ = readings.remove(at);
}

/// Puts that type system in the place of another one.
fn settle(typed: &mut Typed, made: Typed)
    ensures { typed.new ≡ made }
{
    *typed = made;
}

/// Puts that type system in the place of another one, where there is one.
fn settle_if_some(typed: &mut Typed, made: Option<Typed>)
    ensures { typed.new ≡ unwrap_or made typed.old }
{
    if let Some(made) = made {
        *typed = made;
    }
}

/// Forgets the index.
fn forget(index: &mut Option<Index>)
    ensures { index.new ≡ None }
{
    *index = None;
}

/// The keys of the documents that the project does not have.
fn gone(alloc: Global, documents: &[Doc], project: &Project) -> Result<Vec<OwnedText>, NoMemory>
    ensures { IfOk result (λ keys. AreGone documents.now project.now keys.items) }
{
    let mut keys = Vec::new(alloc);
    for doc in documents {
        if project.get(doc.key.as_str()).is_none() {
            keys.push(doc.key.copied(alloc)?)?;
        }
    }
    Ok(keys)
}
