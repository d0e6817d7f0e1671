//! Where something stands in a project.
ghost use Rattle.std.specs.Prelude.{◌≡◌, ◌++◌, OnOk};
ghost use Rattle.gq_index.specs.Occurrences.{occurrences_in_file};

use gq_text::{NoMemory, Span};

/// Where a name token or a definition stands.
#[derive(Clone, Copy, Debug, PartialEq, Eq)]
pub struct Occurrence {
    /// The number of the document in the project, from 0.
    pub file: usize,
    /// The place of its tokens in bytes of that document's text.
    pub span: Span,
}

/// Puts these places of a document behind the others.
pub fn put_spans(file: usize, spans: &[Span], places: &mut Vec<Occurrence>) -> Result<(), NoMemory>
    ensures { OnOk result (places.new.items ≡ places.old.items ++ occurrences_in_file file spans.now) }
{
    for span in spans {
        places.push(Occurrence { file, span: *span })?;
    }
    Ok(())
}
