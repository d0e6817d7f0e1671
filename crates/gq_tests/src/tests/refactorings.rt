//! Refactorings by the one call for all of them, what is made of their edits, and renames by the calls for one sort of name.
ghost use Rattle.std.specs.Prelude.{◌≡◌, true, Some, OnOk};
ghost use Rattle.gq_mentions.specs.declared.target.Target.{Target};
ghost use Rattle.gq_rename.specs.Asks.{IsTarget};

use crate::tests::documents::document;
use gq_edit::{Edit, apply};
use gq_project::{Doc, Project};
use gq_rename::{Refusal, Target, TargetKind, rename_fragment, rename_variable, target};
use gq_reshape::{Ask, offer};
use gq_rules::Valid;
use gq_text::Span;
use std::alloc::Global;
use std::test::Fail;

/// The document of a line: its key, a blank, and its text.
fn doc(alloc: Global, line: &str) -> Result<Doc, Fail> {
    let (key, text) = line.split_once(' ').ok_or("no text")?;
    Ok(document(alloc, key, Some(3), text)?)
}

/// The project of these lines, a document each.
fn valid(alloc: Global, lines: &str) -> Result<Valid, Fail> {
    let mut project = Project::new(alloc);
    for line in lines.trim().lines() {
        project.put(doc(alloc, line.trim())?)?;
    }
    match Valid::new(alloc, project) {
        Ok(valid) => Ok(valid),
        Err(_) => Err("the project is not valid".into()),
    }
}

/// The edit's documents, each with its version and what replaces which bytes.
fn told(alloc: Global, edit: &Edit) -> Result<String, Fail> {
    let mut told = String::new(alloc);
    for one in edit.documents() {
        let version = one.version.ok_or("no version")?;
        write!(told, "{}@{version}", one.key.as_str())?;
        for item in one.replacements.as_slice() {
            let text = item.text.as_str();
            write!(told, " {}..{}={text}", item.span.start, item.span.end)?;
        }
        write!(told, ";")?;
    }
    Ok(told)
}

/// The documents with their versions after the edit that is offered.
fn edited(alloc: Global, valid: &Valid, ask: Ask<'_>) -> Result<String, Fail> {
    let edit = offer(alloc, valid, ask)?;
    let after = apply(alloc, valid.project(), &edit)?;
    let mut told = String::new(alloc);
    for doc in after.documents() {
        let version = doc.version.ok_or("no version")?;
        write!(
            told,
            "{}@{version} {};",
            doc.key.as_str(),
            doc.text.as_str()
        )?;
    }
    Ok(told)
}

const SHARED: &str = "
    a query A($v:Int){...F}
    b query B($v:Int){...F}
    f fragment F on Query{f(a:$v)}
    s type Query{f(a:Int):Int}
";

#[test]
fn a_rename_is_offered(rt: HostRuntime) -> Result<(), Fail> {
    let alloc = rt.alloc();
    let ask = Ask::Rename {
        key: "f",
        offset: 25,
        new_name: "w",
    };
    let made = edited(alloc, &valid(alloc, SHARED)?, ask)?;
    let want =
        "a@3 query A($w:Int){...F};b@3 query B($w:Int){...F};f@3 fragment F on Query{f(a:$w)};s@3 type Query{f(a:Int):Int};";
    assert_eq!(rt; made.as_str(), want);
    Ok(())
}

#[test]
fn an_extract_is_offered(rt: HostRuntime) -> Result<(), Fail> {
    let alloc = rt.alloc();
    let files = "
        q {a{b}c}
        s type Query{a:A c:Int} type A{b:Int}
    ";
    let range = Span { start: 1, end: 5 };
    let ask = Ask::Extract { key: "q", range };
    let made = edited(alloc, &valid(alloc, files)?, ask)?;
    let want =
        "q@3 {...Extracted1 c}\n\nfragment Extracted1 on Query {\na{b}\n}\n;s@3 type Query{a:A c:Int} type A{b:Int};";
    assert_eq!(rt; made.as_str(), want);
    Ok(())
}

#[test]
fn an_inline_is_offered(rt: HostRuntime) -> Result<(), Fail> {
    let alloc = rt.alloc();
    let files = "
        f fragment F on Query{b}
        q query Q($v:Boolean!){...F @include(if:$v)}
        s type Query{b:Int}
    ";
    let range = Span { start: 22, end: 22 };
    let ask = Ask::Inline { key: "q", range };
    let made = edited(alloc, &valid(alloc, files)?, ask)?;
    let want =
        "f@3 ;q@3 query Q($v:Boolean!){...on Query @include(if:$v) {b}};s@3 type Query{b:Int};";
    assert_eq!(rt; made.as_str(), want);
    Ok(())
}

#[test]
fn a_remove_is_offered(rt: HostRuntime) -> Result<(), Fail> {
    let alloc = rt.alloc();
    let files = "
        q {x...{a}y}
        s type Query{x:Int a:Int y:Int}
    ";
    let range = Span { start: 3, end: 3 };
    let ask = Ask::Remove { key: "q", range };
    let made = edited(alloc, &valid(alloc, files)?, ask)?;
    assert_eq!(rt;
        made.as_str(),
        "q@3 {x a y};s@3 type Query{x:Int a:Int y:Int};"
    );
    Ok(())
}

#[test]
fn an_edit_to_more_than_4_mib_is_refused(rt: HostRuntime) -> Result<(), Fail> {
    let alloc = rt.alloc();
    let valid = valid(alloc, SHARED)?;
    let name = "x".repeat(alloc, 4_194_304)?;
    let ask = Ask::Rename {
        key: "f",
        offset: 9,
        new_name: name.as_str(),
    };
    assert_eq!(rt; offer(alloc, &valid, ask).err(), Some(Refusal::TooLarge));
    Ok(())
}

/// Whether there is no target, or one of that kind.
fn is_of(found: &Option<Target>, kind: TargetKind) -> bool
    ensures { result ≡ true → (t : Target) → found.now ≡ Some t → t.kind ≡ kind }
{
    match found {
        Some(found) => found.kind == kind,
        None => true,
    }
}

/// Fails where the offset means something of another kind.
fn expect_kind(
    alloc: Global,
    valid: &Valid,
    key: &str,
    offset: usize,
    kind: TargetKind,
) -> Result<(), Fail>
    ensures { OnOk result ((t : Target) → IsTarget valid.now key.now offset t → t.kind ≡ kind) }
{
    let found = target(alloc, valid, key, offset)?;
    if is_of(&found, kind) {
        Ok(())
    } else {
        Err("another kind".into())
    }
}

#[test]
fn a_fragment_is_renamed(rt: HostRuntime) -> Result<(), Fail> {
    let alloc = rt.alloc();
    let valid = valid(alloc, SHARED)?;
    expect_kind(alloc, &valid, "a", 19, TargetKind::Fragment)?;
    let edit = rename_fragment(alloc, &valid, "a", 19, "G")?;
    let want = "a@3 19..20=G;b@3 19..20=G;f@3 9..10=G;";
    assert_eq!(rt; told(alloc, &edit)?.as_str(), want);
    Ok(())
}

#[test]
fn a_variable_is_renamed(rt: HostRuntime) -> Result<(), Fail> {
    let alloc = rt.alloc();
    let valid = valid(alloc, SHARED)?;
    expect_kind(alloc, &valid, "a", 8, TargetKind::Variable)?;
    let edit = rename_variable(alloc, &valid, "a", 8, "on")?;
    let want = "a@3 9..10=on;b@3 9..10=on;f@3 25..26=on;";
    assert_eq!(rt; told(alloc, &edit)?.as_str(), want);
    Ok(())
}
