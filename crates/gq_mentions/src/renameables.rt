//! What can be renamed in a document (GraphQL, October 2021, sections 2.8 and 2.10).
ghost use Rattle.std.specs.Prelude.{◌≡◌, ◌+◌, ◌<◌, ◌^◌, IfOk};
ghost use Rattle.gq_tree.specs.Views.{def_view, document_view};
ghost use Rattle.gq_renamed.specs.Renamed.{next_number};
ghost use Rattle.gq_mentions.specs.Mentions.{mentions};
ghost use Rattle.gq_mentions.specs.Renameables.{target_kind, can_be_renamed, renameables};
ghost use Rattle.gq_mentions.specs.Views.{mention_view, mentions_view};

use crate::mention::{Mention, MentionKind};
use crate::mentions::put_mentions;
use crate::target::TargetKind;
use gq_text::NoMemory;
use gq_tree::{Definition, Document};
use std::alloc::Global;

/// What a rename of a name of that kind is of, if it can be renamed.
pub(crate) fn target_kind(kind: MentionKind) -> Option<TargetKind>
    ensures { result ≡ target_kind kind }
{
    match kind {
        MentionKind::Fragment => Some(TargetKind::Fragment),
        MentionKind::Variable => Some(TargetKind::Variable),
        MentionKind::Field => None,
        MentionKind::Condition => None,
    }
}

fn can_be_renamed(one: &Mention<'_>) -> bool
    ensures { result ≡ can_be_renamed (mention_view one.now) }
{
    target_kind(one.kind).is_some()
}

/// The number of the next executable definition, behind this one.
fn next_number(definition: &Definition, number: usize) -> usize
    requires { number + 1 < 2 ^ 64 }
    ensures { result ≡ next_number (def_view definition.now) number }
{
    match definition {
        Definition::Operation(_) => number + 1,
        Definition::Fragment(_) => number + 1,
        Definition::TypeSystem(_) => number,
    }
}

/// What is named in a document, in the order of the text, where its first executable definition has that number.
fn mentions<'a>(
    alloc: Global,
    document: &'a Document,
    first: usize,
) -> Result<Vec<Mention<'a>>, NoMemory>
    requires { first < 2 ^ 63 }
    ensures { IfOk result (λ all. mentions_view all.items ≡ mentions first (document_view document.now)) }
{
    let mut all = Vec::new(alloc);
    let mut number = first;
    for definition in &document.definitions {
        put_mentions(number, definition, &mut all)?;
        number = next_number(definition, number);
    }
    Ok(all)
}

/// What can be renamed in a document, in the order of the text, where its first executable definition has that number.
pub(crate) fn renameables<'a>(
    alloc: Global,
    document: &'a Document,
    first: usize,
) -> Result<Vec<Mention<'a>>, NoMemory>
    requires { first < 2 ^ 63 }
    ensures { IfOk result (λ some. mentions_view some.items ≡ renameables first (document_view document.now)) }
{
    let all = mentions(alloc, document, first)?;
    let mut some = Vec::new(alloc);
    for one in &all {
        if can_be_renamed(one) {
            some.push(*one)?;
        }
    }
    Ok(some)
}
