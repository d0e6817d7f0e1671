//! What the text of a document reads as: read, or taken from a piece of that document.
ghost use Rattle.std.specs.Prelude.{◌≡◌, IfOk, IfSome};
ghost use Rattle.gq_tree.specs.Readings.{shared_view};
ghost use Rattle.gq_parse.specs.Parsed.{IsParsed};

use gq_parse::Piece;
use gq_parse::reader::read_text;
use gq_project::Doc;
use gq_text::NoMemory;
use gq_tree::{Parsed, share};
use std::alloc::Global;
use std::sync::Arc;

/// What the document's text reads as.
fn read_anew(alloc: Global, doc: &Doc) -> Result<Arc<Parsed>, NoMemory>
    ensures { IfOk result (λ reading. ∥ IsParsed doc.now.text (shared_view reading) ∥₁) }
{
    let parsed = read_text(alloc, doc.text.as_str())?;
    let reading = share(alloc, parsed)?;
    Ok(reading)
}

/// What the document's text reads as. The tree is the piece's, if that is a piece of this document.
pub(crate) fn reading_by(
    alloc: Global,
    doc: &Doc,
    piece: Option<Arc<Piece>>,
) -> Result<Arc<Parsed>, NoMemory>
    ensures { IfOk result (λ reading. ∥ IsParsed doc.now.text (shared_view reading) ∥₁) }
{
    match piece {
        Some(piece) if piece.is_of(doc) => piece.tree(),
        _ => read_anew(alloc, doc),
    }
}

/// A piece of the document among pieces in ascending order of their keys.
fn piece_of<'a>(pieces: &'a [Arc<Piece>], doc: &Doc) -> Option<&'a Arc<Piece>> {
    let key = doc.key.as_str();
    match pieces.binary_search_by(|piece| piece.key().cmp(&key)) {
        Ok(at) => pieces.get(at),
        Err(_) => None,
    }
}

/// Adds a piece of the document, whose text reads so, where there is memory for it.
fn add_piece(alloc: Global, doc: &Doc, tree: &Arc<Parsed>, pieces: &mut Vec<Arc<Piece>>)
    requires { ∥ IsParsed doc.now.text (shared_view tree.now) ∥₁ }
{
    let Ok(piece) = Piece::with_tree(alloc, doc, tree) else {
        return;
    };
    if let Ok(piece) = Arc::new(alloc, piece) {
        let _ = pieces.push(piece);
    }
}

/// What the document's text reads as. The tree is taken of a piece of this document, if there is one; else the text is read,
/// and a piece of it is added to `parsed`, where there is memory for it.
pub(crate) fn reading_among(
    alloc: Global,
    doc: &Doc,
    pieces: &[Arc<Piece>],
    parsed: &mut Vec<Arc<Piece>>,
) -> Result<Arc<Parsed>, NoMemory>
    ensures { IfOk result (λ reading. ∥ IsParsed doc.now.text (shared_view reading) ∥₁) }
{
    if let Some(piece) = piece_of(pieces, doc) {
        if piece.is_of(doc) {
            return piece.tree();
        }
    }
    let reading = read_anew(alloc, doc)?;
    add_piece(alloc, doc, &reading, parsed);
    Ok(reading)
}
