//! What the definition of an answer means.
ghost use Rattle.gq_replies.specs.Laws.{AnswersRespond, QuestionsHaveOneAnswer};
ghost use Rattle.gq_replies.specs.Offers.{AnsweredEditsAreSafe};

use gq_index::laws::documents_have_one_list;
use gq_rename::laws::{prepared_names_are_determined, renames_are_determined};
use gq_reshape::laws::offers_are_determined;
use gq_schema::laws::documents_have_one_type_system;

/// Each answer to a question is a response to its request.
pub fn answers_respond()
    ensures { AnswersRespond }
{}

/// A question has one answer: two responses that are defined for it are equal, but for one that memory was refused.
pub fn questions_have_one_answer()
    ensures { QuestionsHaveOneAnswer }
{
    documents_have_one_list();
    documents_have_one_type_system();
    renames_are_determined();
    prepared_names_are_determined();
    offers_are_determined();
}

/// Each edit of an answer is exactly the one that is asked for, of a valid project that it leaves valid, and changes no response.
pub fn answered_edits_are_safe()
    ensures { AnsweredEditsAreSafe }
{}
