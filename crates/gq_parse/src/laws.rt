//! What the definitions of the grammar mean.
ghost use Rattle.std.specs.Prelude.{◌≡◌, ℕ, List};
ghost use Rattle.gq_text.specs.declared.place.Span.{Span};
ghost use Rattle.gq_tree.specs.Plain.{Def};
ghost use Rattle.gq_parse.specs.Derives.{Derives};
ghost use Rattle.gq_parse.specs.Faults.{IsSyntaxFault, IsLimitFault};
ghost use Rattle.gq_parse.specs.Limits.{PassesLimitAt};
ghost use Rattle.gq_project.specs.declared.document.Doc.{Doc};
ghost use Rattle.gq_tree.specs.Readings.{ParsedOf};
ghost use Rattle.gq_parse.specs.Parsed.{AreParsed};

/// A text has at most one tree.
pub fn one_tree()
    ensures { (text : List ℕ) (a b : List (Def Span)) → Derives text a → Derives text b → a ≡ b }
{}

/// A text that passes a limit has none.
pub fn no_tree_past_limits()
    ensures { (text : List ℕ) (place : ℕ) (document : List (Def Span)) → PassesLimitAt text place → Derives text document → ⊥ }
{}

/// A text has at most one fault, at one place: two syntax faults stand at one place, so do two limit faults, and no text has both.
pub fn one_fault()
    ensures syntax { (text : List ℕ) (a b : ℕ) → IsSyntaxFault text a → IsSyntaxFault text b → a ≡ b }
    ensures limit { (text : List ℕ) (a b : ℕ) → IsLimitFault text a → IsLimitFault text b → a ≡ b }
    ensures not_both { (text : List ℕ) (a b : ℕ) → IsSyntaxFault text a → IsLimitFault text b → ⊥ }
{
    gq_lex::laws::one_reading();
    gq_lex::laws::one_fault();
    gq_lex::laws::faults_read_as_nothing();
    gq_lex::laws::limits_are_passed();
    gq_lex::laws::tokens_stand_in_order();
}

/// Documents are read in one way: a text has one tree, or one fault at one place.
pub fn documents_have_one_reading()
    ensures { (documents : List Doc) (a b : List ParsedOf) → AreParsed documents a → AreParsed documents b → a ≡ b }
{
    one_tree();
    one_fault();
}
