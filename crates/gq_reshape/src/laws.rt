//! Laws of refactorings of selections.
ghost use Rattle.std.specs.Prelude.{List, Err};
ghost use Rattle.gq_project.specs.declared.document.Doc.{Doc};
ghost use Rattle.gq_rules.specs.Validity.{IsInvalid};
ghost use Rattle.gq_rename.specs.declared.refusal.Refusal.TheVariants.{ProjectInvalid};
ghost use Rattle.gq_reshape.specs.Asks.{RangeAsk};
ghost use Rattle.gq_reshape.specs.Determined.{OffersAreDetermined, OffersAreThere, AnswersAreDetermined, EditsNameVersions, AnsweredEditsLeadBack};
ghost use Rattle.gq_reshape.specs.LastSpread.{GoesExactlyAlone, GoesWithTheLast};
ghost use Rattle.gq_reshape.specs.Passing.{AnswersPass, ExtractsPass, InlinesPass, RemovalsPass};
ghost use Rattle.gq_reshape.specs.Reshape.{IsExtractAnswer, IsInlineAnswer, IsRemoveAnswer};
ghost use Rattle.gq_reshape.specs.Responses.{EditsKeepResponses};
ghost use Rattle.gq_reshape.specs.RunPlaces.{RunsTouchTheirPlace};

use gq_laws::cuts_read::{extracted_texts_read, inlined_texts_read, removed_texts_read};
use gq_laws::inlines::inlines_keep_all_rules;
use gq_laws::responses::restated_projects_keep_responses;
use gq_laws::rewrites_valid::{extracts_keep_all_rules, removals_keep_all_rules};
use gq_lex::laws::one_reading;
use gq_parse::laws::one_tree;
use gq_rename::laws::{renames_are_determined, renames_are_there};
use gq_rules::laws::{no_project_is_valid_and_invalid, valid_documents_have_trees};
use gq_text::laws::positions_lead_back;

/// In a project that is not valid every one of them is refused as that.
pub fn refactorings_of_invalid_projects_are_refused()
    ensures extract { (documents : List Doc) (ask : RangeAsk) → IsInvalid documents → IsExtractAnswer documents ask (Err ProjectInvalid) }
    ensures inline { (documents : List Doc) (ask : RangeAsk) → IsInvalid documents → IsInlineAnswer documents ask (Err ProjectInvalid) }
    ensures remove { (documents : List Doc) (ask : RangeAsk) → IsInvalid documents → IsRemoveAnswer documents ask (Err ProjectInvalid) }
{
    no_project_is_valid_and_invalid();
}

/// In a valid project the edit of each of them leaves every response as it was.
pub fn refactorings_keep_responses()
    ensures extract { EditsKeepResponses IsExtractAnswer }
    ensures inline { EditsKeepResponses IsInlineAnswer }
    ensures remove { EditsKeepResponses IsRemoveAnswer }
{
    one_tree();
    no_project_is_valid_and_invalid();
    restated_projects_keep_responses();
}

/// In a valid project an inline fragment that says nothing can go: the edited texts read as the trees without its braces, and
/// the edited project is valid. So a remove is not refused for what its edit would leave.
pub fn removals_pass()
    ensures pass { RemovalsPass }
    ensures never { AnswersPass IsRemoveAnswer }
{
    one_tree();
    no_project_is_valid_and_invalid();
    restated_projects_keep_responses();
    valid_documents_have_trees();
    removed_texts_read();
    removals_keep_all_rules();
}

/// In a valid project a spread can become an inline fragment, where no directive is in the way and no edited text passes a limit:
/// the edited texts read as the trees with that change, and the edited project is valid. So an inline is not refused for what its
/// edit would leave.
pub fn inlines_pass()
    ensures pass { InlinesPass }
    ensures never { AnswersPass IsInlineAnswer }
{
    one_tree();
    no_project_is_valid_and_invalid();
    restated_projects_keep_responses();
    valid_documents_have_trees();
    inlined_texts_read();
    inlines_keep_all_rules();
}

/// In a valid project a run can go into a new fragment, where some object type is possible for it and no edited text passes a
/// limit: the edited texts read as the trees with the spread and the fragment, and the edited project is valid. So an extract is
/// not refused for what its edit would leave.
pub fn extracts_pass()
    ensures pass { ExtractsPass }
    ensures never { AnswersPass IsExtractAnswer }
{
    one_tree();
    no_project_is_valid_and_invalid();
    restated_projects_keep_responses();
    valid_documents_have_trees();
    extracted_texts_read();
    extracts_keep_all_rules();
}

/// An ask has one answer: two that meet its definition are equal, however the documents are read.
pub fn offers_are_determined()
    ensures offers { OffersAreDetermined }
    ensures extract { AnswersAreDetermined IsExtractAnswer }
    ensures inline { AnswersAreDetermined IsInlineAnswer }
    ensures remove { AnswersAreDetermined IsRemoveAnswer }
{
    one_tree();
    one_reading();
    renames_are_determined();
}

/// An ask has an answer: documents that are read cannot be without one.
pub fn offers_are_there()
    ensures { OffersAreThere }
{
    renames_are_there();
}

/// Each document that the edit of one of them edits is there at the version that the edit names.
pub fn edits_name_documents_at_their_versions()
    ensures extract { EditsNameVersions IsExtractAnswer }
    ensures inline { EditsNameVersions IsInlineAnswer }
    ensures remove { EditsNameVersions IsRemoveAnswer }
{}

/// The positions that are written for the edit of one of them lead back to its offsets, in each encoding: what it replaces begins and
/// ends where tokens or the text do, and no token begins with LF or ends with CR.
pub fn edits_lead_back()
    ensures extract { AnsweredEditsLeadBack IsExtractAnswer }
    ensures inline { AnsweredEditsLeadBack IsInlineAnswer }
    ensures remove { AnsweredEditsLeadBack IsRemoveAnswer }
{
    positions_lead_back();
}

/// The definition of a fragment goes with a spread of it that is inlined exactly where of all spreads of its name in the
/// project there is this one alone; no selection of the project that stands elsewhere is then a spread of it.
pub fn fragments_go_with_their_last_spread()
    ensures alone { GoesExactlyAlone }
    ensures no_other { GoesWithTheLast }
{}

/// Of a set's selections that stand one after the other, as in the tree of a text, those of a run stand in its place, and those
/// before and behind it stand beside that.
pub fn runs_touch_their_place()
    ensures { RunsTouchTheirPlace }
{}
