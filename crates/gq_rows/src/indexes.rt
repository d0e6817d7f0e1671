//! Where fragments and variables are defined and used in a project.
use crate::no_answer::NoAnswer;
use crate::row::{Row, project_of};
use crate::telling::Telling;
use gq_index::{Index, Occurrence};
use gq_project::Project;
use gq_text::Span;
use std::alloc::Global;

/// Tells places, each as the name of its document and its bytes, or `none`.
fn tell_places(project: &Project, places: &[Occurrence], telling: &mut Telling) {
    for place in places {
        if !telling.is_empty() {
            telling.put(" ");
        }
        if let Some(document) = project.documents().get(place.file) {
            telling.put(document.key.as_str());
        }
        telling.put_span(place.span.start, place.span.end);
    }
    if telling.is_empty() {
        telling.put("none");
    }
}

/// Tells spans, each as its bytes, or `none`.
fn tell_spans(spans: &[Span], telling: &mut Telling) {
    for span in spans {
        if !telling.is_empty() {
            telling.put(" ");
        }
        telling.put_span(span.start, span.end);
    }
    if telling.is_empty() {
        telling.put("none");
    }
}

/// Tells of a variable in the definition of a number, asked as `uses 0 a`.
fn tell_variable(
    alloc: Global,
    index: &Index,
    call: &str,
    words: &str,
    telling: &mut Telling,
) -> Result<(), NoAnswer> {
    let (number, name) = words.split_once(' ').ok_or(NoAnswer)?;
    let number = number.parse::<usize>()?;
    match call {
        "uses" => tell_spans(index.variable_uses(number, name), telling),
        "defined" => tell_spans(index.variable_definitions(number, name), telling),
        "group" => telling.put_debug(&index.variable_group(alloc, number, name)?),
        _ => return Err(NoAnswer),
    }
    Ok(())
}

/// Tells what the index answers to a question such as `spreads F` or `uses 0 a`.
fn tell_of(
    alloc: Global,
    project: &Project,
    index: &Index,
    asked: &str,
    telling: &mut Telling,
) -> Result<(), NoAnswer> {
    let (call, words) = asked.split_once(' ').ok_or(NoAnswer)?;
    match call {
        "definitions" => tell_places(project, index.definitions(words), telling),
        "spreads" => tell_places(project, index.spreads(words), telling),
        "occurrences" => tell_places(project, index.occurrences(words), telling),
        "places" => tell_places(project, index.places(), telling),
        _ => tell_variable(alloc, index, call, words, telling)?,
    }
    Ok(())
}

/// Tells what the index of the given documents answers to a question.
pub fn tell_index(alloc: Global, row: &Row<'_>, telling: &mut Telling) -> Result<(), NoAnswer> {
    let asked = row.asked(alloc)?;
    let project = project_of(alloc, &row.given)?;
    let index = Index::of(alloc, &project)?;
    tell_of(alloc, &project, &index, asked.as_str(), telling)
}
