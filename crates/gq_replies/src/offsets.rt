//! Positions in the text of a document as offsets, in bytes.
ghost use Rattle.std.specs.Prelude.{◌≡◌, ◌≤◌, ◌^◌, length};
ghost use Rattle.gq_edit.specs.Workspace.{AreTexts};
ghost use Rattle.gq_replies.specs.CodeActions.{span_between};
ghost use Rattle.gq_replies.specs.Answers.{text_at, offset_at, span_at};

use gq_project::Project;
use gq_text::{Position, PositionEncoding, Range, Span, offset_in};

/// The text of the document of that key. Where there is none, nothing.
pub(crate) fn text_of<'p>(project: &'p Project, key: &str) -> &'p str
    requires { AreTexts project.now }
    ensures text { result.now ≡ text_at project.now key.now }
    ensures fits { length result.now ≤ 2 ^ 22 }
{
    project.text(key).unwrap_or("")
}

/// The offset of a position in the document of that key.
pub(crate) fn offset_at(
    encoding: PositionEncoding,
    project: &Project,
    key: &str,
    position: Position,
) -> usize
    requires { AreTexts project.now }
    ensures { result ≡ offset_at encoding project.now key.now position }
{
    offset_in(encoding, text_of(project, key), position)
}

/// The span of a range in the document of that key, its ends exchanged where its start comes after its end.
pub(crate) fn span_at(
    encoding: PositionEncoding,
    project: &Project,
    key: &str,
    range: Range,
) -> Span
    requires { AreTexts project.now }
    ensures { result ≡ span_at encoding project.now key.now range }
{
    let start = offset_at(encoding, project, key, range.start);
    let end = offset_at(encoding, project, key, range.end);
    span_between(start, end)
}

/// The span of two offsets, exchanged where the first one comes after the second one.
fn span_between(a: usize, b: usize) -> Span
    ensures { result ≡ span_between a b }
{
    if a <= b {
        Span { start: a, end: b }
    } else {
        Span { start: b, end: a }
    }
}
