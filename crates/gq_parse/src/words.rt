//! The words that have a meaning in some place of a document.

ghost use Rattle.std.specs.Prelude.{◌≡◌};
ghost use Rattle.gq_parse.specs.Helping.Words.{word_of, other_word, locations, is_location};

use crate::expected::Word;

/// Which word a text is.
pub(crate) fn word_of(text: &str) -> Word
    ensures { result ≡ word_of text.now }
{
    match text {
        "query" => Word::Query,
        "mutation" => Word::Mutation,
        "subscription" => Word::Subscription,
        "fragment" => Word::Fragment,
        "on" => Word::On,
        "true" => Word::True,
        "false" => Word::False,
        "null" => Word::Null,
        "extend" => Word::Extend,
        "schema" => Word::Schema,
        "scalar" => Word::Scalar,
        "type" => Word::Object,
        "interface" => Word::Interface,
        "union" => Word::Union,
        "enum" => Word::Enum,
        "input" => Word::Input,
        "directive" => Word::Directive,
        "implements" => Word::Implements,
        "repeatable" => Word::Repeatable,
        _ => other_word(text),
    }
}

fn other_word(text: &str) -> Word
    ensures { result ≡ other_word text.now }
{
    if is_location(text) {
        Word::Location
    } else {
        Word::Other
    }
}

fn is_location(text: &str) -> bool
    ensures { result ≡ is_location locations text.now }
{
    matches!(
        text,
        "QUERY"
            | "MUTATION"
            | "SUBSCRIPTION"
            | "FIELD"
            | "FRAGMENT_DEFINITION"
            | "FRAGMENT_SPREAD"
            | "INLINE_FRAGMENT"
            | "VARIABLE_DEFINITION"
            | "SCHEMA"
            | "SCALAR"
            | "OBJECT"
            | "FIELD_DEFINITION"
            | "ARGUMENT_DEFINITION"
            | "INTERFACE"
            | "UNION"
            | "ENUM"
            | "ENUM_VALUE"
            | "INPUT_OBJECT"
            | "INPUT_FIELD_DEFINITION"
    )
}
