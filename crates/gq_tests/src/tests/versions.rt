//! Documents without a version, as of files that no client has open (LSP 3.17, TextDocumentEdit).
use crate::tests::documents::file;
use gq_edit::{TextDocumentEdit, WorkspaceEdit, apply};
use gq_project::Project;
use gq_reshape::{Ask, offer};
use gq_rpc::{Id, Outgoing, encode};
use gq_rules::Valid;
use gq_text::{Items, OwnedText};
use std::alloc::Global;
use std::test::Fail;

fn valid(alloc: Global) -> Result<Valid, Fail> {
    let mut project = Project::new(alloc);
    project.put(file(alloc, "q", "{...F} fragment F on Query{x}")?)?;
    project.put(file(alloc, "s", "type Query{x:Int}")?)?;
    match Valid::new(alloc, project) {
        Ok(valid) => Ok(valid),
        Err(_) => Err("the project is not valid".into()),
    }
}

#[test]
fn a_document_without_a_version_is_edited(rt: HostRuntime) -> Result<(), Fail> {
    let alloc = rt.alloc();
    let valid = valid(alloc)?;
    let ask = Ask::Rename {
        key: "q",
        offset: 4,
        new_name: "G",
    };
    let edit = offer(alloc, &valid, ask)?;
    let after = apply(alloc, valid.project(), &edit)?;
    let edited = after.get("q").ok_or("no document")?;
    assert_eq!(rt; edited.version, None);
    assert_eq!(rt; edited.text.as_str(), "{...G} fragment G on Query{x}");
    Ok(())
}

#[test]
fn a_missing_version_is_written_as_null(rt: HostRuntime) -> Result<(), Fail> {
    let alloc = rt.alloc();
    let mut document_changes = Items::new(alloc);
    document_changes.push(TextDocumentEdit {
        uri: OwnedText::from_str(alloc, "file:///f.graphql")?,
        version: None,
        edits: Items::new(alloc),
    })?;
    let edit = WorkspaceEdit { document_changes };
    let written = encode(alloc, &Outgoing::Renamed(Id::Number(2), edit))?;
    let body =
        r#"{"id":2,"jsonrpc":"2.0","result":{"documentChanges":[{"edits":[],"textDocument":{"uri":"file:///f.graphql","version":null}}]}}"#;
    let frame = format!(in alloc; "Content-Length: 126\r\n\r\n{body}")?;
    assert_eq!(rt; written.as_slice(), frame.as_str().as_bytes());
    Ok(())
}
