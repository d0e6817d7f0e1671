//! Whether a text passes a limit, whatever else is wrong with it.
ghost use Rattle.std.specs.Prelude.{◌↔◌, IfOk, IsTrue};
ghost use Rattle.gq_reshape.specs.Helping.Limits.{PassesSomeLimit};

use gq_lex::laws::{faults_read_as_nothing, limits_are_passed, one_fault, one_reading};
use gq_lex::{LexFault, lex};
use gq_parse::too_deep;
use gq_text::NoMemory;
use std::alloc::Global;

/// Whether the text has too many tokens, or they nest too deep.
pub(crate) fn tokens_pass_limit(alloc: Global, text: &str) -> Result<bool, NoMemory>
    ensures { IfOk result (λ passes. IsTrue passes ↔ PassesSomeLimit text.now) }
{
    one_reading();
    one_fault();
    faults_read_as_nothing();
    limits_are_passed();
    match lex(alloc, text) {
        Ok(tokens) => match too_deep(&tokens) {
            Some(_) => Ok(true),
            None => Ok(false),
        },
        Err(LexFault::Bad { .. }) => Ok(false),
        Err(LexFault::Limit { .. }) => Ok(true),
        Err(LexFault::NoMemory) => Err(NoMemory),
    }
}
