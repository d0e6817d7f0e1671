//! Questions about a project that is read for each, and a rename on one thread. The server asks the same of what it keeps, and the
//! command line by threads.
use crate::tests::documents::document;
use gq_check::File;
use gq_codemod::rename;
use gq_known::Learned;
use gq_project::Project;
use gq_query::{Occurrence, complete, definition, diagnostics, hover, references};
use gq_rename::prepare;
use gq_rules::validate_known;
use gq_text::{NoMemory, OwnedText, Position};
use std::alloc::Global;
use std::test::Fail;

const S: &str = "type Query{x:Int}";

const Q: &str = "query Q($a:Boolean!){x @include(if:$a) ...A} fragment A on Query{x}";

/// The project of that text and the type system.
fn project_of(alloc: Global, text: &str) -> Result<Project, NoMemory> {
    let mut project = Project::new(alloc);
    project.put(document(alloc, "s", Some(1), S)?)?;
    project.put(document(alloc, "q", Some(1), text)?)?;
    Ok(project)
}

/// Writes places, each behind the number of its document.
fn write_places(told: &mut String, places: &[Occurrence]) -> Result<(), Fail> {
    for place in places {
        write!(
            told,
            " {}:{}..{}",
            place.file, place.span.start, place.span.end
        )?;
    }
    Ok(())
}

#[test]
fn a_project_is_asked_about(rt: HostRuntime) -> Result<(), Fail> {
    let alloc = rt.alloc();
    let project = project_of(alloc, Q)?;
    let mut told = String::new(alloc);
    if let Some(found) = hover(alloc, &project, "q", 42)? {
        write!(told, "{} {}", found.value.as_str(), found.span.start)?;
    }
    if let Some(span) = prepare(alloc, &project, "q", 42)? {
        write!(told, " {}..{}", span.start, span.end)?;
    }
    write_places(&mut told, &definition(alloc, &project, "q", 42)?)?;
    write_places(&mut told, &references(alloc, &project, "q", 54, true)?)?;
    for found in &complete(alloc, &project, "q", 43)? {
        write!(told, " {}", found.label.as_str())?;
    }
    let want = "fragment A on Query 42 42..43 0:54..55 0:42..43 0:54..55 A";
    assert_eq!(rt; told.as_str(), want);
    Ok(())
}

#[test]
fn a_project_is_told_of(rt: HostRuntime) -> Result<(), Fail> {
    let alloc = rt.alloc();
    let project = project_of(alloc, "{y}")?;
    let mut told = String::new(alloc);
    for found in &diagnostics(alloc, &project)? {
        write!(told, "{} ", found.len())?;
    }
    let learned = Learned::of(alloc, &project)?;
    let report = validate_known(alloc, learned.known(&project))?;
    write!(told, "{}", report.found.len())?;
    assert_eq!(rt; told.as_str(), "1 0 1");
    Ok(())
}

fn file(alloc: Global, name: &str, text: &str) -> Result<File, NoMemory> {
    Ok(File {
        name: OwnedText::from_str(alloc, name)?,
        bytes: Some(Vec::from_slice(alloc, text.as_bytes())?),
        why: OwnedText::from_str(alloc, "")?,
    })
}

#[test]
fn a_fragment_is_renamed_on_one_thread(rt: HostRuntime) -> Result<(), Fail> {
    let alloc = rt.alloc();
    let mut files = Vec::new(alloc);
    files.push(file(alloc, "s", S)?)?;
    files.push(file(alloc, "q", Q)?)?;
    let place = Position {
        line: 0,
        character: 42,
    };
    let Ok(made) = rename(alloc, &files, "q", place, "B") else {
        return Err("the rename is at fault".into());
    };
    let want = b"q:1:43-1:44: B\nq:1:55-1:56: B\n".as_slice();
    assert_eq!(rt; (made.output.as_slice(), made.status), (want, 0));
    Ok(())
}
