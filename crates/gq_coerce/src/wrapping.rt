//! Types, and values that are wrapped in lists for them (GraphQL, October 2021, section 3.11).
ghost use Rattle.std.specs.Prelude.{◌≡◌, IfOk};
ghost use Rattle.gq_tree.specs.Views.{type_view};
ghost use Rattle.gq_coerce.specs.Literals.{unless_null};
ghost use Rattle.gq_coerce.specs.Helping.Wrapping.{wrapped_to};
ghost use Rattle.gq_coerce.specs.Helping.Views.{coerced_view};

use crate::coerced::{Coerced, wrapped};
use gq_text::NoMemory;
use gq_tree::TypeRef;
use std::alloc::Global;

/// What was coerced at the name that ends the type, wrapped once for each list in the type.
#[tactic(auto, using(gq_tree::proofs::Trees::types))]
pub(crate) fn wrapped_to(
    alloc: Global,
    type_ref: &TypeRef,
    coerced: Coerced,
) -> Result<Coerced, NoMemory>
    ensures { IfOk result (λ c. coerced_view c ≡ wrapped_to (type_view type_ref.now) (coerced_view coerced)) }
{
    match type_ref {
        TypeRef::Named(_) => Ok(coerced),
        TypeRef::List(item) => {
            let inner = wrapped_to(alloc, item, coerced)?;
            wrapped(alloc, inner)
        }
        TypeRef::NonNull(inner) => wrapped_to(alloc, inner, coerced),
    }
}

/// Null is a fault at a type that has none.
pub(crate) fn unless_null(type_ref: &TypeRef, coerced: Coerced) -> Coerced
    ensures { coerced_view result ≡ unless_null (type_view type_ref.now) (coerced_view coerced) }
{
    match coerced {
        Coerced::Absent => Coerced::Absent,
        Coerced::Fault => Coerced::Fault,
        Coerced::Given(value) => {
            if type_ref.is_non_null() && value.is_null() {
                return Coerced::Fault;
            }
            Coerced::Given(value)
        }
    }
}
