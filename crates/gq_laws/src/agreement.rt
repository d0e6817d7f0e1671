//! Laws of the fields that an operation of a valid project asks for.
ghost use Rattle.gq_laws.specs.Rewriting.Agree.{NamesAgreeInValid};

use crate::validity::nothing_is_demanded_of_valid_projects;

/// At each path of a response of a valid project where the result is an object that fits the type there, the fields of one
/// response key have one name, if the fields of each object type have subtypes of those of its interfaces
/// (GraphQL, October 2021, section 5.3.2).
pub fn names_agree_in_valid_projects()
    ensures { NamesAgreeInValid }
{
    nothing_is_demanded_of_valid_projects();
}
