//! Laws of responses: each request to a valid project has exactly one, and has the same where the documents ask for the same.
ghost use Rattle.gq_laws.specs.Rewriting.Answerable.{RequestsHaveAResponse};
ghost use Rattle.gq_laws.specs.Rewriting.Executed.{RequestsHaveOneResponse};
ghost use Rattle.gq_laws.specs.Rewriting.Unchanged.{RestatedProjectsKeepResponses};

use crate::agreement::names_agree_in_valid_projects;
use crate::types::objects_have_subtypes;
use crate::validity::fragments_can_be_ranked;
use gq_meaning::laws::responses_are_determined;
use gq_parse::laws::one_tree;

/// A project has at most one response to each request. So `execute` speaks of that one.
pub fn requests_have_one_response()
    ensures { RequestsHaveOneResponse }
{
    responses_are_determined();
    one_tree();
}

/// Over every table, and for all values of variables, each request to a valid project has a response.
/// `requests_have_one_response` says that it has no other.
pub fn requests_have_a_response()
    ensures { RequestsHaveAResponse }
{
    fragments_can_be_ranked();
}

/// Where the documents of a valid project are written anew, so that they ask for what they did over the same types and are
/// valid, each operation has exactly the responses that it had.
pub fn restated_projects_keep_responses()
    ensures { RestatedProjectsKeepResponses }
{
    fragments_can_be_ranked();
    objects_have_subtypes();
    names_agree_in_valid_projects();
    requests_have_a_response();
    requests_have_one_response();
}
