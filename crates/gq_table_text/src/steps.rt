//! Steps from token to token.
ghost use Rattle.std.specs.Prelude.{◌≡◌, ◌∷◌, IfSome, IsTrue};
ghost use Rattle.json.specs.Token.{end_object, key, string};
ghost use Rattle.gq_table_text.specs.Helping.ReadAs.{BeginsWithNatural};

use crate::leaves::natural;
use json::{Reader, Token};

/// Goes to the value of a member of that name.
pub(crate) fn enter_member(reader: &mut Reader<'_>, name: &str) -> bool
    ensures { IsTrue result → reader.old ≡ key name.now ∷ reader.new }
{
    matches!(reader.next(), Some(Token::Key(word)) if word == name)
}

/// Goes behind the brace that closes an object.
pub(crate) fn leave_object(reader: &mut Reader<'_>) -> bool
    ensures { IsTrue result → reader.old ≡ end_object ∷ reader.new }
{
    matches!(reader.next(), Some(Token::EndObject))
}

/// The text that comes next.
pub(crate) fn next_text<'a>(reader: &mut Reader<'a>) -> Option<&'a str>
    ensures { IfSome result (λ text. reader.old ≡ string text.now ∷ reader.new) }
{
    match reader.next() {
        Some(Token::String(text)) => Some(text),
        _ => None,
    }
}

/// The natural number below 2^63 that comes next, in digits alone.
pub(crate) fn next_natural(reader: &mut Reader<'_>) -> Option<u64>
    ensures { IfSome result (λ n. BeginsWithNatural reader.old reader.new n) }
{
    match reader.next() {
        Some(Token::Number(text)) => natural(text),
        _ => None,
    }
}
