//! What stands at the front of what is left of a block string.

ghost use Rattle.std.specs.Prelude.{◌≡◌};
ghost use Rattle.gq_lex.specs.Blocks.{begins_escape, begins_quotes, is_source_byte};
ghost use Rattle.gq_lex.specs.Scanning.{block_step};

use crate::bytes::{byte_at, is_comment_byte, is_line_terminator};
use crate::quoted::Step;

#[tactic(auto, unfolding(crate::specs::Scanning::block_step))]
pub(crate) fn block_step(bytes: &[u8]) -> Step
    ensures { result ≡ block_step bytes.now }
{
    if begins_quotes(bytes) {
        Step::Ends(3)
    } else if begins_escape(bytes) {
        Step::Goes(4)
    } else if is_source_byte(byte_at(bytes, 0)) {
        Step::Goes(1)
    } else {
        Step::Fails
    }
}

pub(crate) fn begins_quotes(bytes: &[u8]) -> bool
    ensures { result ≡ begins_quotes bytes.now }
{
    bytes.starts_with(b"\"\"\"")
}

pub(crate) fn begins_escape(bytes: &[u8]) -> bool
    ensures { result ≡ begins_escape bytes.now }
{
    bytes.starts_with(b"\\\"\"\"")
}

fn is_source_byte(b: u8) -> bool
    ensures { result ≡ is_source_byte b }
{
    is_comment_byte(b) || is_line_terminator(b)
}
