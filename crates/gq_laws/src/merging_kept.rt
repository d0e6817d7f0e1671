//! Laws of fields that merge in a project in which selections were moved into fragments or out of them.
ghost use Rattle.gq_laws.specs.Merging.Edits.{FieldsOutOfBracesMerge, InlinedFieldsMerge};
ghost use Rattle.gq_laws.specs.Merging.Restated.{RestatedProjectsMerge};
ghost use Rattle.gq_laws.specs.Merging.Rewritten.{RewrittenFieldsMerge};

/// What merged before selections were moved into fragments or out of them merges after.
pub fn rewritten_fields_merge()
    ensures { RewrittenFieldsMerge }
{}

/// Where a project becomes another one of the same types, place aside, all fields merge in that if they did before.
pub fn restated_projects_merge()
    ensures { RestatedProjectsMerge }
{}

/// Where all fields merge, they do so after a spread is inlined.
pub fn inlined_fields_merge()
    ensures { InlinedFieldsMerge }
{}

/// So they do after an inline fragment that says nothing loses its braces.
pub fn fields_out_of_braces_merge()
    ensures { FieldsOutOfBracesMerge }
{}
