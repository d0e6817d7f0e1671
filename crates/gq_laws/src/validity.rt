//! What validity means for execution.
ghost use Rattle.gq_laws.specs.Rewriting.Validity.{NothingIsDemanded, FragmentsAreRanked};

use gq_rules::laws::no_project_is_valid_and_invalid;

/// Nothing is demanded of a valid project, whatever reads its documents.
pub fn nothing_is_demanded_of_valid_projects()
    ensures { NothingIsDemanded }
{
    no_project_is_valid_and_invalid();
}

/// The fragments of a valid project can be ranked by their spreads, with each operation above them (GraphQL, October 2021,
/// section 5.5.2.2).
pub fn fragments_can_be_ranked()
    ensures { FragmentsAreRanked }
{
    no_project_is_valid_and_invalid();
}
