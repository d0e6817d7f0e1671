//! Laws of the faults of definitions that are equal but for their places, or also but for names of fragments and variables.
ghost use Rattle.gq_fields.specs.FieldFaults.{IsFieldFault};
ghost use Rattle.gq_fragments.specs.FragmentFaults.{IsFragmentFault};
ghost use Rattle.gq_fragments.specs.FragmentSpreadTypeExistence.{IsUnknownCondition};
ghost use Rattle.gq_fragments.specs.FragmentsOnCompositeTypes.{IsConditionNotComposite};
ghost use Rattle.gq_fragments.specs.OperationFaults.{IsOperationFault};
ghost use Rattle.gq_laws.specs.Placing.Merging.{DifferingIsSymmetric, FieldsThatAreKeptMerge, MeetingIsSymmetric};
ghost use Rattle.gq_laws.specs.Placing.Names.{FragmentRenamesKeepFaultless, NamesDoNotMatter, RenamedAreSameButNames, RenamesKeepFaultless, VariableRenamesKeepFaultless};
ghost use Rattle.gq_laws.specs.Placing.ObjectTypes.{OtherObjectsKeepTypes};
ghost use Rattle.gq_laws.specs.Placing.OtherFields.{OtherFieldsDoNotMatter, TypesLookAlikeBut};
ghost use Rattle.gq_laws.specs.Placing.Places.{DocumentsAreSameButPlaces, PlacesDoNotMatter};
ghost use Rattle.gq_laws.specs.Placing.Tokens.{LinesReadApart, SameTokensDefineAlike};
ghost use Rattle.gq_laws.specs.Placing.Types.{DocumentsOfTypesDoNotMatterToTypes, NoPlacesMatter, PlacesOfTypesDoNotMatter, PlacesOfTypesDoNotMatterToTypes};
ghost use Rattle.gq_laws.specs.Placing.Types.{ProjectsAreSameButPlaces, TreesSayWhatIsFaultless, TypesLookAlike};
ghost use Rattle.gq_merging.specs.FieldsMerge.{IsMergingFault};
ghost use Rattle.gq_rules.specs.RuleFaults.{IsRuleFault};
ghost use Rattle.gq_spreads.specs.SpreadFaults.{IsSpreadFault};
ghost use Rattle.gq_variables.specs.VariableFaults.{IsVariableFault};

/// Of executable definitions that are equal but for their places, the one has a fault of fields, arguments, directives or
/// default values where the other has one.
pub fn places_do_not_matter_to_field_faults()
    ensures { PlacesDoNotMatter IsFieldFault }
{}

/// The same of the faults of operations, and of those of fragments and type conditions.
pub fn places_do_not_matter_to_definition_faults()
    ensures operations { PlacesDoNotMatter IsOperationFault }
    ensures fragments { PlacesDoNotMatter IsFragmentFault }
{}

/// The same of the faults of spreads and of the fragments that these reach.
pub fn places_do_not_matter_to_spread_faults()
    ensures { PlacesDoNotMatter IsSpreadFault }
{}

/// The same of the faults of variables.
pub fn places_do_not_matter_to_variable_faults()
    ensures { PlacesDoNotMatter IsVariableFault }
{}

/// The same of the faults of fields that do not merge.
pub fn places_do_not_matter_to_merging_faults()
    ensures { PlacesDoNotMatter IsMergingFault }
{}

/// Two fields meet in either order.
pub fn meeting_is_symmetric()
    ensures { MeetingIsSymmetric }
{}

/// Two fields differ in either order.
pub fn differing_is_symmetric()
    ensures { DifferingIsSymmetric }
{}

/// Where the fields of each selection set stand in one of another project, in whatever documents and fragments, all that merges
/// there merges here.
pub fn fields_that_are_kept_merge()
    ensures { FieldsThatAreKeptMerge }
{}

/// What is read of documents that are equal but for their places is equal but for its places.
pub fn documents_are_same_but_places()
    ensures { DocumentsAreSameButPlaces }
{}

/// Over type systems in which each look-up finds the same but for its places, the faults are the same.
pub fn places_of_types_do_not_matter()
    ensures fields { PlacesOfTypesDoNotMatter IsFieldFault }
    ensures operations { PlacesOfTypesDoNotMatter IsOperationFault }
    ensures fragments { PlacesOfTypesDoNotMatter IsFragmentFault }
    ensures spreads { PlacesOfTypesDoNotMatter IsSpreadFault }
    ensures variables { PlacesOfTypesDoNotMatter IsVariableFault }
    ensures merging { PlacesOfTypesDoNotMatter IsMergingFault }
{}

/// So it is of all rules of executable definitions.
pub fn places_of_types_do_not_matter_to_rules()
    ensures { PlacesOfTypesDoNotMatter IsRuleFault }
{
    places_of_types_do_not_matter();
}

/// In type systems that are equal but for their places each look-up finds the same but for its places.
pub fn types_look_alike()
    ensures { TypesLookAlike }
{}

/// In type systems that are equal but for their places and for fields of some names each look-up of another field finds the same but for its places.
pub fn types_look_alike_but()
    ensures { TypesLookAlikeBut }
{}

/// Over such type systems operations and fragments that select no field of these names have the same faults.
pub fn other_fields_do_not_matter_to_rules()
    ensures { OtherFieldsDoNotMatter IsRuleFault }
{}

/// Where a type system breaks no rule, one that differs from it in fields of object types alone breaks none, if it breaks none at these types.
pub fn other_objects_keep_types()
    ensures { OtherObjectsKeepTypes }
{}

/// Of type systems that are equal but for their places, the one breaks a rule of the type system in a document where the other does.
pub fn places_of_types_do_not_matter_to_types()
    ensures { PlacesOfTypesDoNotMatterToTypes }
{}

/// So it does where the documents that they stand in have other numbers, in some document.
pub fn documents_of_types_do_not_matter_to_types()
    ensures { DocumentsOfTypesDoNotMatterToTypes }
{}

/// Where lines in a text are exchanged for others with the same tokens, and these lines and what stands before them read by themselves,
/// the whole has the tokens that it had.
pub fn lines_read_apart()
    ensures { LinesReadApart }
{}

/// Documents whose texts have the same tokens define types that are equal but for their places.
pub fn same_tokens_define_alike()
    ensures { SameTokensDefineAlike }
{}

/// Places in executable definitions and in the type system do not matter.
pub fn no_places_matter()
    ensures fields { NoPlacesMatter IsFieldFault }
    ensures operations { NoPlacesMatter IsOperationFault }
    ensures fragments { NoPlacesMatter IsFragmentFault }
    ensures spreads { NoPlacesMatter IsSpreadFault }
    ensures variables { NoPlacesMatter IsVariableFault }
    ensures merging { NoPlacesMatter IsMergingFault }
{
    places_do_not_matter_to_field_faults();
    places_do_not_matter_to_definition_faults();
    places_do_not_matter_to_spread_faults();
    places_do_not_matter_to_variable_faults();
    places_do_not_matter_to_merging_faults();
    places_of_types_do_not_matter();
}

/// They matter to no rule of executable definitions.
pub fn no_places_matter_to_rules()
    ensures { NoPlacesMatter IsRuleFault }
{
    no_places_matter();
}

/// What is read of projects whose definitions are equal but for their places is equal but for its places.
pub fn projects_are_same_but_places()
    ensures { ProjectsAreSameButPlaces }
{}

/// Whether a project is faultless by the rules of operations and fragments is seen in its trees without places.
pub fn trees_say_what_is_faultless()
    ensures fields { TreesSayWhatIsFaultless IsFieldFault }
    ensures operations { TreesSayWhatIsFaultless IsOperationFault }
    ensures fragments { TreesSayWhatIsFaultless IsFragmentFault }
    ensures spreads { TreesSayWhatIsFaultless IsSpreadFault }
    ensures variables { TreesSayWhatIsFaultless IsVariableFault }
    ensures merging { TreesSayWhatIsFaultless IsMergingFault }
{
    no_places_matter();
}

/// Two projects with the same trees without places are both faultless by all rules of executable definitions, or neither is.
pub fn trees_say_whether_rules_hold()
    ensures { TreesSayWhatIsFaultless IsRuleFault }
{
    no_places_matter_to_rules();
}

/// Neither places nor the names of fragments and variables matter to these faults.
pub fn names_do_not_matter()
    ensures fields { NamesDoNotMatter IsFieldFault }
    ensures operations { NamesDoNotMatter IsOperationFault }
    ensures unknown_conditions { NamesDoNotMatter IsUnknownCondition }
    ensures other_conditions { NamesDoNotMatter IsConditionNotComposite }
{}

/// What is read of documents before and after a rename is equal but for places and those names.
pub fn renamed_documents_are_same_but_names()
    ensures { RenamedAreSameButNames }
{}

/// A rename of fragments or variables brings no fault of these rules.
pub fn renames_keep_what_is_faultless()
    ensures fields { RenamesKeepFaultless IsFieldFault }
    ensures operations { RenamesKeepFaultless IsOperationFault }
    ensures unknown_conditions { RenamesKeepFaultless IsUnknownCondition }
    ensures other_conditions { RenamesKeepFaultless IsConditionNotComposite }
{
    names_do_not_matter();
}

/// A rename of a fragment to a name that no fragment and no spread has brings no fault of fragments and type conditions, of
/// spreads, of variables and of fields that do not merge.
pub fn fragment_renames_keep_what_is_faultless()
    ensures fragments { FragmentRenamesKeepFaultless IsFragmentFault }
    ensures spreads { FragmentRenamesKeepFaultless IsSpreadFault }
    ensures variables { FragmentRenamesKeepFaultless IsVariableFault }
    ensures merging { FragmentRenamesKeepFaultless IsMergingFault }
{}

/// So it brings no fault of any rule of executable definitions.
pub fn fragment_renames_keep_all_rules()
    ensures { FragmentRenamesKeepFaultless IsRuleFault }
{
    renames_keep_what_is_faultless();
    fragment_renames_keep_what_is_faultless();
}

/// A rename of variables brings no fault of fragments and type conditions, nor of spreads.
pub fn variable_renames_keep_what_is_faultless()
    ensures fragments { VariableRenamesKeepFaultless IsFragmentFault }
    ensures spreads { VariableRenamesKeepFaultless IsSpreadFault }
{}
