//! Laws of what execution meets in the operations of a valid project.
ghost use Rattle.gq_laws.specs.Rewriting.OneCall.{FieldsAreOneCall};
ghost use Rattle.gq_laws.specs.Rewriting.StaticTypes.{FieldsAreSound, SetsAreSound};

use crate::types::objects_have_subtypes;
use crate::validity::nothing_is_demanded_of_valid_projects;

/// Soundness of static types: at each path of a response that does not fail and has an object, each field that asks for what
/// stands there has a selection set of whose parent's type the object's type is a possible one (GraphQL, October 2021, section
/// 5.5.2.3); and each field that is then asked of the object stands in a selection set with such a parent.
pub fn static_types_are_sound()
    ensures sets { SetsAreSound }
    ensures fields { FieldsAreSound }
{
    nothing_is_demanded_of_valid_projects();
    objects_have_subtypes();
}

/// At each path of a response the fields that ask for what stands there, which have one response key, have one name and identical
/// arguments (GraphQL, October 2021, section 5.3.2).
pub fn fields_of_one_key_are_one_call()
    ensures { FieldsAreOneCall }
{
    nothing_is_demanded_of_valid_projects();
    objects_have_subtypes();
}
