//! Where a fault of an operation is told (GraphQL, October 2021, section 2.3).
ghost use Rattle.std.specs.Prelude.{◌≡◌};
ghost use Rattle.gq_document.specs.Definitions.{operation_view};
ghost use Rattle.gq_fragments.specs.OperationPlace.{keyword_length, first_token, operation_place};

use gq_document::OperationEntry;
use gq_fault::first_bytes;
use gq_text::Span;
use gq_tree::OperationKind;

/// The length of the keyword of an operation, in bytes.
fn keyword_length(kind: OperationKind) -> usize
    ensures { result ≡ keyword_length kind }
{
    match kind {
        OperationKind::Query => 5,
        OperationKind::Mutation => 8,
        OperationKind::Subscription => 12,
    }
}

/// The first token of an operation: its opening brace where it begins with it, else its keyword.
pub(crate) fn first_token(operation: &OperationEntry<'_>) -> Span
    ensures { result ≡ first_token (operation_view operation.now) }
{
    let place = operation.definition.span;
    if operation.definition.set.span.start == place.start {
        first_bytes(1, place)
    } else {
        first_bytes(keyword_length(operation.definition.kind), place)
    }
}

/// The name of an operation or, where it has none, its first token.
pub(crate) fn operation_place(operation: &OperationEntry<'_>) -> Span
    ensures { result ≡ operation_place (operation_view operation.now) }
{
    match &operation.definition.name {
        Some(name) => name.span,
        None => first_token(operation),
    }
}
