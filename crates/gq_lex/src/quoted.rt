//! How long the string or block string at the front of a text is.

ghost use Rattle.std.specs.Prelude.{◌≡◌, ℕ, ◌≤◌, ◌^◌, IfSome, length};
ghost use Rattle.gq_lex.specs.Scanning.{closed, quoted_at, scan, step_at};

use crate::blocks::{begins_quotes, block_step};
use crate::bytes::behind;
use crate::strings::string_step;
use crate::token::{BadKind, Kind};

// What is quoted: a string or a block string.
#[derive(Clone, Copy)]
pub(crate) enum Form {
    Plain,
    Block,
}

// What stands at the front of what is left: the end, of so many bytes, so many bytes that belong to it, or a fault.
#[derive(Clone, Copy)]
pub(crate) enum Step {
    Ends(usize),
    Goes(usize),
    Fails,
}

// The string or block string at the front: its kind, and its length.
#[tactic(auto, unfolding(crate::specs::Scanning::quoted_at))]
pub(crate) fn quoted(bytes: &[u8]) -> Result<(Option<Kind>, usize), BadKind>
    requires { 1 ≤ length bytes.now }
    ensures { result ≡ quoted_at bytes.now }
{
    if begins_quotes(bytes) {
        closed(Kind::BlockString, 3, scan(Form::Block, &bytes[3..]))
    } else {
        closed(Kind::String, 1, scan(Form::Plain, &bytes[1..]))
    }
}

// The whole length, where it ends.
fn closed(kind: Kind, before: usize, len: Option<usize>) -> Result<(Option<Kind>, usize), BadKind>
    requires before { before ≤ 3 }
    requires len { IfSome len (λ n. n ≤ 2 ^ 63) }
    ensures { result ≡ closed kind before len }
{
    match len {
        Some(len) => Ok((Some(kind), before + len)),
        None => Err(BadKind::Quote),
    }
}

// The length up to the end, the quotation marks that close it included.
fn scan(form: Form, bytes: &[u8]) -> Option<usize>
    ensures len { result ≡ scan form bytes.now 0 }
    ensures within { IfSome result (λ n. n ≤ length bytes.now) }
{
    let mut at = 0;
    while at < bytes.len() {
        match step_at(form, behind(bytes, at)) {
            Step::Ends(len) => return Some(at + len),
            Step::Goes(len) => at += len,
            Step::Fails => return None,
        }
    }
    None
}

pub(crate) fn step_at(form: Form, bytes: &[u8]) -> Step
    ensures { result ≡ step_at form bytes.now }
{
    match form {
        Form::Plain => string_step(bytes),
        Form::Block => block_step(bytes),
    }
}
