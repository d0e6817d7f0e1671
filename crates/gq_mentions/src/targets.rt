//! What an offset in a document means to a rename.
ghost use Rattle.std.specs.Prelude.{◌≡◌, ◌<◌, ◌^◌, IfOk};
ghost use Rattle.gq_tree.specs.Views.{document_view};
ghost use Rattle.gq_mentions.specs.Renameables.{renameables};
ghost use Rattle.gq_mentions.specs.Targets.{as_target, target};
ghost use Rattle.gq_mentions.specs.Views.{mention_view};

use crate::finding::meant;
use crate::mention::Mention;
use crate::renameables::{renameables, target_kind};
use crate::target::Target;
use gq_text::NoMemory;
use gq_tree::{Document, Name};
use std::alloc::Global;

/// The target that a name is, without the tree, where it can be renamed.
fn as_target(alloc: Global, one: &Mention<'_>) -> Result<Option<Target>, NoMemory>
    ensures { IfOk result (λ target. target ≡ as_target (mention_view one.now)) }
{
    let Some(kind) = target_kind(one.kind) else {
        return Ok(None);
    };
    let text = one.name.text.copied(alloc)?;
    Ok(Some(Target {
        kind,
        span: one.span,
        name: Name {
            text,
            span: one.name.span,
        },
        definition: one.definition,
    }))
}

/// What a rename at the offset, in bytes, of a document is of: the name of a fragment or the variable whose span holds
/// the offset, else the one whose span ends there. The document's first executable definition has the number `first`.
pub fn target_in(
    alloc: Global,
    document: &Document,
    first: usize,
    offset: usize,
) -> Result<Option<Target>, NoMemory>
    requires { first < 2 ^ 63 }
    ensures { IfOk result (λ found. found ≡ target offset (renameables first (document_view document.now))) }
{
    let all = renameables(alloc, document, first)?;
    match meant(&all, offset) {
        Some(one) => as_target(alloc, &one),
        None => Ok(None),
    }
}
