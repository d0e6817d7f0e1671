//! The root type for queries.
ghost use Rattle.std.specs.Prelude.{◌≡◌, ◌++◌, OnOk};
ghost use Rattle.std.specs.List.{list_any};
ghost use Rattle.gq_type_system.specs.Helping.Groups.{roots_in_view};
ghost use Rattle.gq_types.specs.Look.{types_view};
ghost use Rattle.gq_type_system.specs.Helping.QueryRootPlaces.{is_for_queries, no_query_root};

use crate::root_entries::{RootIn, roots_of};
use gq_fault::{Code, Fault};
use gq_text::NoMemory;
use gq_tree::OperationKind;
use gq_types::Types;
use std::alloc::Global;

/// Whether one of the entries is for queries.
fn has_query(roots: &[RootIn<'_>]) -> bool
    ensures { result ≡ list_any is_for_queries (roots_in_view roots.now) }
{
    for one in roots {
        if one.root.kind == OperationKind::Query {
            return true;
        }
    }
    false
}

/// Tells, at the beginning of the first document, that the schema has no root type for queries (section 3.3.1).
pub fn add_no_query_root(
    alloc: Global,
    types: &Types,
    faults: &mut Vec<Fault>,
) -> Result<(), NoMemory>
    ensures { OnOk result (faults.new.items ≡ faults.old.items ++ no_query_root (types_view types.now)) }
{
    let None = types.default_root(OperationKind::Query) else {
        return Ok(());
    };
    let roots = roots_of(alloc, types, types.schema_number())?;
    if !has_query(&roots) {
        faults.push(Fault {
            file: 0,
            start: 0,
            code: Code::NoQueryRoot,
            end: 0,
        })?;
    }
    Ok(())
}
