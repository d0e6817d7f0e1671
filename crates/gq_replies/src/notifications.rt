//! The notifications that tell what is wrong with documents.
ghost use Rattle.std.specs.Prelude.{◌≡◌, ◌++◌, ◌≤◌, ◌^◌, length, map, IfOk, OnOk};
ghost use Rattle.gq_edit.specs.Workspace.{AreTexts};
ghost use Rattle.gq_rules.specs.Validity.{IsReportOf};
ghost use Rattle.gq_replies.specs.Notifications.{diagnostic_in, diagnostics_in, notification_of, messages_of, AreDiagnosticsMessages};

use crate::places::Places;
use gq_diagnostics::{diagnostics_of, words};
use gq_fault::Found;
use gq_kept::Kept;
use gq_project::{Doc, Project};
use gq_rpc::{Diagnostic, Outgoing, PublishDiagnosticsParams};
use gq_rules::Report;
use gq_text::{Items, NoMemory, OwnedText, PositionEncoding, Span};
use std::alloc::Global;

/// The notifications that tell all that is wrong with each document that the client has open (LSP 3.17, "PublishDiagnostics
/// Notification"), in the order of the documents that are kept. These stay as they are.
pub fn diagnostics_messages(
    alloc: Global,
    encoding: PositionEncoding,
    kept: &mut Kept,
) -> Result<Vec<Outgoing>, NoMemory>
    requires { AreTexts kept.old.documents }
    ensures messages { IfOk result (λ messages. ∥ AreDiagnosticsMessages encoding kept.old.documents messages.items ∥₁) }
    ensures documents { kept.new.documents ≡ kept.old.documents }
{
    let report = kept.report(alloc)?;
    let messages = messages_of(alloc, encoding, kept.project(), report)?;
    Ok(messages)
}

/// The notifications for a project on which that is the report.
fn messages_of(
    alloc: Global,
    encoding: PositionEncoding,
    project: &Project,
    report: Report,
) -> Result<Vec<Outgoing>, NoMemory>
    requires { AreTexts project.now }
    ensures { IfOk result (λ messages. IsReportOf project.now report.found.items → AreDiagnosticsMessages encoding project.now messages.items) }
{
    let all = diagnostics_of(alloc, project, report)?;
    notifications(alloc, encoding, project.documents(), &all)
}

/// A notification for each open document with what is wrong with it.
fn notifications(
    alloc: Global,
    encoding: PositionEncoding,
    documents: &[Doc],
    all: &[Items<Found>],
) -> Result<Vec<Outgoing>, NoMemory>
    requires { AreTexts documents.now }
    ensures { IfOk result (λ messages. messages.items ≡ messages_of encoding documents.now all.now) }
{
    let mut messages = Vec::new(alloc);
    for (index, document) in documents.iter().enumerate() {
        let Some(found) = all.get(index) else {
            return Ok(messages);
        };
        notify(alloc, encoding, document, found.as_slice(), &mut messages)?;
    }
    Ok(messages)
}

/// Adds the notification with what is wrong with a document, where the client has it open.
fn notify(
    alloc: Global,
    encoding: PositionEncoding,
    document: &Doc,
    found: &[Found],
    messages: &mut Vec<Outgoing>,
) -> Result<(), NoMemory>
    requires { length document.now.text ≤ 2 ^ 22 }
    ensures { OnOk result (messages.new.items ≡ messages.old.items ++ notification_of encoding document.now found.now) }
{
    if document.version.is_some() {
        let params = document_diagnostics(alloc, encoding, document, found)?;
        messages.push(Outgoing::Diagnostics(params))?;
    }
    Ok(())
}

/// What is wrong with a document, under its URI and its version.
fn document_diagnostics(
    alloc: Global,
    encoding: PositionEncoding,
    document: &Doc,
    found: &[Found],
) -> Result<PublishDiagnosticsParams, NoMemory>
    requires { length document.now.text ≤ 2 ^ 22 }
    ensures { IfOk result (λ params. params ≡ diagnostics_in encoding document.now found.now) }
{
    let diagnostics = text_diagnostics(alloc, encoding, document.text.as_str(), found)?;
    Ok(PublishDiagnosticsParams {
        uri: document.uri.copied(alloc)?,
        version: document.version,
        diagnostics,
    })
}

/// What is wrong with a text, which is gone over once.
fn text_diagnostics(
    alloc: Global,
    encoding: PositionEncoding,
    text: &str,
    found: &[Found],
) -> Result<Items<Diagnostic>, NoMemory>
    requires { length text.now ≤ 2 ^ 22 }
    ensures { IfOk result (λ diagnostics. diagnostics ≡ map (diagnostic_in encoding text.now) found.now) }
{
    let spans: Vec<Span> = found.iter().map(|one| one.span).collect(alloc)?;
    let places = Places::of(alloc, encoding, text, &spans)?;
    let mut diagnostics = Items::new(alloc);
    for one in found {
        diagnostics.push(Diagnostic {
            code: OwnedText::from_str(alloc, one.code.as_str())?,
            message: OwnedText::from_str(alloc, words(one.code))?,
            range: places.range(encoding, text, one.span),
        })?;
    }
    Ok(diagnostics)
}
