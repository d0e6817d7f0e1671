//! Directives in operations and fragments (GraphQL, October 2021, section 5.7).
ghost use Rattle.std.specs.Prelude.{◌≡◌, ◌++◌, [], OnOk, map};
ghost use Rattle.gq_tree.specs.Views.{directive_view};
ghost use Rattle.gq_types.specs.Look.{types_view};
ghost use Rattle.gq_values.specs.DirectivePlaces.{directive_faults};
ghost use Rattle.gq_document.specs.Views.{selected_view};
ghost use Rattle.gq_fields.specs.Directives.{operation_location, selection_site};
ghost use Rattle.gq_fields.specs.Helping.DirectivesPlaces.{wrong_directives_at};

use gq_document::Selected;
use gq_fault::Fault;
use gq_names::NameList;
use gq_text::NoMemory;
use gq_tree::{Directive, DirectiveLocation, OperationKind, Selection};
use gq_types::Types;
use gq_values::add_directive_faults;
use std::alloc::Global;

/// Where the directives on an operation of that kind stand.
pub(crate) fn operation_location(kind: OperationKind) -> DirectiveLocation
    ensures { result ≡ operation_location kind }
{
    match kind {
        OperationKind::Query => DirectiveLocation::Query,
        OperationKind::Mutation => DirectiveLocation::Mutation,
        OperationKind::Subscription => DirectiveLocation::Subscription,
    }
}

/// Adds each fault of the directives at one place. Most places have none.
pub(crate) fn add_wrong_directives(
    alloc: Global,
    types: &Types,
    file: usize,
    location: DirectiveLocation,
    directives: &[Directive],
    faults: &mut Vec<Fault>,
) -> Result<(), NoMemory>
    ensures { OnOk result (faults.new.items ≡ faults.old.items ++ directive_faults (types_view types.now) file location [] (map directive_view directives.now)) }
{
    if directives.is_empty() {
        return Ok(());
    }
    let mut before = NameList::new(alloc);
    add_directive_faults(
        alloc,
        types,
        file,
        location,
        &mut before,
        directives,
        faults,
    )
}

/// Adds each fault of the directives on a selection.
#[tactic(auto, using(gq_tree::proofs::Trees::gathers))]
pub(crate) fn add_wrong_directives_of_selection(
    alloc: Global,
    types: &Types,
    selected: &Selected<'_>,
    faults: &mut Vec<Fault>,
) -> Result<(), NoMemory>
    ensures { OnOk result (faults.new.items ≡ faults.old.items ++ wrong_directives_at (types_view types.now) (selection_site (selected_view selected.now))) }
{
    let file = selected.file;
    match selected.selection {
        Selection::Field(field) => {
            let location = DirectiveLocation::Field;
            add_wrong_directives(alloc, types, file, location, &field.directives, faults)
        }
        Selection::Spread(spread) => {
            let location = DirectiveLocation::FragmentSpread;
            add_wrong_directives(alloc, types, file, location, &spread.directives, faults)
        }
        Selection::Inline(inline) => {
            let location = DirectiveLocation::InlineFragment;
            add_wrong_directives(alloc, types, file, location, &inline.directives, faults)
        }
    }
}
