//! All refactorings by one call.
ghost use Rattle.std.specs.Prelude.{◌≡◌, ◌⊎◌, Err, IfOk};
ghost use Rattle.gq_edit.specs.Edits.{FitDocuments, after_edit};
ghost use Rattle.gq_rules.specs.Validity.{IsValid};
ghost use Rattle.gq_rename.specs.declared.refusal.Refusal.TheVariants as refusal;
ghost use Rattle.gq_reshape.specs.Asked.{IsOfferedFor, KeepsResponsesFor};

use crate::extracting::extract;
use crate::inlining::inline;
use crate::removing::remove_redundant;
use gq_edit::Edit;
use gq_rename::{Refusal, rename};
use gq_rules::Valid;
use gq_text::Span;
use std::alloc::Global;

/// A refactoring that is asked for, of the document of a key. Offsets and ranges are in bytes; the end of a range is
/// left out.
#[derive(Clone, Copy)]
pub enum Ask<'a> {
    /// What the offset means, a fragment or a variable, is given another name.
    Rename {
        key: &'a str,
        offset: usize,
        new_name: &'a str,
    },
    /// The selections that the range means are put into a new fragment.
    Extract {
        key: &'a str,
        range: Span,
    },
    /// The spread that the range means becomes an inline fragment.
    Inline {
        key: &'a str,
        range: Span,
    },
    /// The selections of the inline fragment that the range means stand in its place.
    Remove {
        key: &'a str,
        range: Span,
    },
}

/// The edit of a refactoring, or the first refusal whose condition holds; `NoMemory` where a growth was refused.
pub fn offer(alloc: Global, valid: &Valid, ask: Ask<'_>) -> Result<Edit, Refusal>
    ensures answer { (result ≡ Err refusal.NoMemory) ⊎ IsOfferedFor valid.now ask.entry result }
    ensures fits { IfOk result (FitDocuments valid.now) }
    ensures responses { IfOk result (KeepsResponsesFor valid.now ask.entry) }
    ensures valid { IfOk result (λ edit. ∥ IsValid (after_edit edit valid.now) ∥₁) }
    ensures never_self_check { result ≡ Err refusal.SelfCheck → ⊥ }
{
    match ask {
        Ask::Rename {
            key,
            offset,
            new_name,
        } => rename(alloc, valid, key, offset, new_name),
        Ask::Extract { key, range } => extract(alloc, valid, key, range),
        Ask::Inline { key, range } => inline(alloc, valid, key, range),
        Ask::Remove { key, range } => remove_redundant(alloc, valid, key, range),
    }
}
