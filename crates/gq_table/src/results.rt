//! What resolvers answer.

use crate::values::Leaf;
use gq_text::SmallText;

/// What a resolver answers for a field.
#[derive(Drop)]
pub enum Outcome {
    Nothing,
    Failed,
    Leaf(Leaf),
    Object { type_name: SmallText, number: u64 },
    List(Vec<Outcome>),
}
