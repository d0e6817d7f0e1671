//! Laws of validity about types.
ghost use Rattle.gq_laws.specs.Rewriting.Braces.{SelectionsStandInBraces};
ghost use Rattle.gq_laws.specs.Rewriting.Implementations.{InterfacesAreImplemented, ObjectsHaveSubtypeFields};
ghost use Rattle.gq_laws.specs.Rewriting.ParentsAndFields.{FieldsAreDefined, OperationsHaveRoots, ParentsAreKnown};
ghost use Rattle.gq_laws.specs.Rewriting.Subtypes.{ObjectsHaveFields, ObjectsHaveSubtypes, SubtypesHaveFewerObjects};

use gq_rules::laws::no_project_is_valid_and_invalid;

/// In a valid project each object that is possible for a subtype is possible for the type (GraphQL, October 2021, sections 3.6 to 3.8).
pub fn subtypes_have_fewer_objects()
    ensures { SubtypesHaveFewerObjects }
{
    no_project_is_valid_and_invalid();
}

/// In a valid project an object has each field of each type for which it is possible, and each object that is possible for its
/// type there is possible for the type that the other one has (section 3.6).
pub fn objects_have_fields()
    ensures { ObjectsHaveFields }
{
    no_project_is_valid_and_invalid();
}

/// In a valid project a type that declares an interface has each field of it, of a subtype (lists by their items, types without
/// null for those with it, possible objects, interfaces that declare the other), with its arguments; and declares what that
/// interface declares (IsValidImplementation, GraphQL, October 2021, sections 3.6.1 and 3.7).
pub fn interfaces_are_implemented()
    ensures { InterfacesAreImplemented }
{
    no_project_is_valid_and_invalid();
}

/// So an object has each field of each type for which it is possible, of a subtype in that full sense.
pub fn objects_have_subtype_fields()
    ensures { ObjectsHaveSubtypeFields }
{
    no_project_is_valid_and_invalid();
}

/// So wherever execution meets a field, each object that is possible for its type is possible for the one that the document shows
/// (section 6.4), with any table and any values of variables.
pub fn objects_have_subtypes()
    ensures { ObjectsHaveSubtypes }
{
    no_project_is_valid_and_invalid();
}

/// Each operation of a valid project has a root type, which is an object type (section 3.3.1).
pub fn operations_have_roots()
    ensures { OperationsHaveRoots }
{
    no_project_is_valid_and_invalid();
}

/// The parent of each selection of a valid project is known, and is an object type, an interface or a union (section 5.3).
pub fn parents_are_known()
    ensures { ParentsAreKnown }
{
    no_project_is_valid_and_invalid();
}

/// Each field that a valid project selects is defined on its parent (section 5.3.1), and has selections below it exactly where its type is composite (section 5.3.3).
pub fn fields_are_defined()
    ensures { FieldsAreDefined }
{
    no_project_is_valid_and_invalid();
}

/// Selections stand below a field exactly where it has braces, below an inline fragment always, and below a spread never (sections 2.4, 2.5 and 2.8).
pub fn selections_stand_in_braces()
    ensures { SelectionsStandInBraces }
{}
