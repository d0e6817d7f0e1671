//! How deep brackets nest.
ghost use Rattle.std.specs.Prelude.{◌≡◌, map, IfSome, IfNone};
ghost use Rattle.gq_lex.specs.Tokens.{lexeme_of};
ghost use Rattle.gq_parse.specs.Limits.{opens, closes, IsNestedWithin, IsTooDeepAt};

use gq_lex::{Kind, Token};

/// How many `{` and `[` may be open at once.
pub const NESTING_MAX: usize = 100;

/// Where the first token begins that opens more brackets than may be open at once.
pub fn too_deep(tokens: &[Token<'_>]) -> Option<usize>
    ensures found { IfSome result (IsTooDeepAt (map lexeme_of tokens.now)) }
    ensures none { IfNone result (IsNestedWithin 100 (map lexeme_of tokens.now)) }
{
    let mut opened: usize = 0;
    let mut closed: usize = 0;
    for token in tokens {
        if opens(token.kind) {
            opened += 1;
            if opened > closed + NESTING_MAX {
                return Some(token.span.start);
            }
        } else if closes(token.kind) {
            closed += 1;
        }
    }
    None
}

fn opens(kind: Kind) -> bool
    ensures { result ≡ opens kind }
{
    matches!(kind, Kind::BraceOpen | Kind::BracketOpen)
}

fn closes(kind: Kind) -> bool
    ensures { result ≡ closes kind }
{
    matches!(kind, Kind::BraceClose | Kind::BracketClose)
}
