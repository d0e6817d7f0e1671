//! Laws of what a text reads as.

ghost use Rattle.std.specs.Prelude.{◌≡◌, ℕ, ◌^◌, ◌<◌, List, length, All};
ghost use Rattle.std.specs.Str.{IsUtf8};
ghost use Rattle.gq_lex.specs.declared.token.BadKind.{BadKind};
ghost use Rattle.gq_lex.specs.declared.token.Kind.TheVariants.{String, BlockString};
ghost use Rattle.gq_lex.specs.declared.token.LexFault.{LexFault};
ghost use Rattle.gq_lex.specs.Faults.{IsFault};
ghost use Rattle.gq_lex.specs.Tokens.{IsToken, Lexeme, Reads, IsBadAt, IsLimitAt};
ghost use Rattle.gq_lex.specs.Values.{IsStringValue, IsBlockStringValue};
ghost use Rattle.gq_lex.specs.Places.{StandIn, IsCutOf};

/// A text reads as at most one list of tokens.
pub fn one_reading()
    ensures { (text : List ℕ) (a b : List Lexeme) → Reads text a → Reads text b → a ≡ b }
{}

/// A text has at most one fault: its place and what it is are determined.
pub fn one_fault()
    ensures { (text : List ℕ) (a b : LexFault) → IsFault text a → IsFault text b → a ≡ b }
{}

/// A text with a fault reads as no tokens.
pub fn faults_read_as_nothing()
    ensures { (text : List ℕ) (place : ℕ) (kind : BadKind) (tokens : List Lexeme) → IsBadAt text place kind → Reads text tokens → ⊥ }
{}

/// A text past the limit reads as no fewer tokens.
pub fn limits_are_passed()
    ensures { (text : List ℕ) (place : ℕ) (tokens : List Lexeme) → IsLimitAt text place → Reads text tokens → 2 ^ 20 < length tokens }
{}

/// The tokens of a text stand in it, one behind another.
pub fn tokens_stand_in_order()
    ensures { (text : List ℕ) (tokens : List Lexeme) → Reads text tokens → StandIn text 0 tokens }
{}

/// Each token of a text begins and ends between characters.
pub fn tokens_cut_no_character()
    ensures { (text : List ℕ) (tokens : List Lexeme) → IsUtf8 text → Reads text tokens → All (IsCutOf text) tokens }
{}

/// Each string of a text has a value.
pub fn strings_have_values()
    ensures { (text after : List ℕ) → IsToken String text after → (value : List ℕ) × IsStringValue text value }
{}

/// A string has at most one value.
pub fn one_string_value()
    ensures { (text a b : List ℕ) → IsStringValue text a → IsStringValue text b → a ≡ b }
{}

/// Each block string of a text has a value.
pub fn block_strings_have_values()
    ensures { (text after : List ℕ) → IsToken BlockString text after → (value : List ℕ) × IsBlockStringValue text value }
{}

/// A block string has at most one value.
pub fn one_block_string_value()
    ensures { (text a b : List ℕ) → IsBlockStringValue text a → IsBlockStringValue text b → a ≡ b }
{}
