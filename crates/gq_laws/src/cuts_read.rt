//! Laws of texts in which selections were moved.
ghost use Rattle.gq_laws.specs.Cutting.Extracted.{ExtractedTextsRead};
ghost use Rattle.gq_laws.specs.Cutting.Inlined.{InlinedTextsRead, InlinedTextsReadWithoutFragment, TextsReadWithoutFragment};
ghost use Rattle.gq_laws.specs.Cutting.Removed.{RemovedTextsRead};

/// A text in which the selections of an inline fragment without directives stand in its place, between two spaces, reads as the
/// tree without its braces (GraphQL, October 2021, section 2.8.2).
pub fn removed_texts_read()
    ensures { RemovedTextsRead }
{}

/// A text in which consecutive selections of a set became a spread, and a new fragment with them stands at the end, reads as the
/// tree with these, unless it passes a limit (section 2.8).
pub fn extracted_texts_read()
    ensures { ExtractedTextsRead }
{}

/// A text in which a spread became an inline fragment with what its fragment selects reads as the tree with that, a text from
/// which a fragment went as the tree without it, and a text with both as that with both, unless it passes a limit (section 2.8.2).
pub fn inlined_texts_read()
    ensures texts { InlinedTextsRead }
    ensures gone { TextsReadWithoutFragment }
    ensures both { InlinedTextsReadWithoutFragment }
{}
