//! What is kept of definitions for their uses, so that a use costs what is given at it.

use crate::argument_names::ArgumentNames;
use crate::roots::RootNames;
use gq_names::NameList;
use gq_tree::DirectiveLocation;

/// For each entry the required input fields, the names of arguments and the locations; and the roots of the schema.
#[derive(Drop)]
pub(crate) struct Uses {
    pub(crate) required: Vec<NameList>,
    pub(crate) arguments: Vec<Vec<ArgumentNames>>,
    pub(crate) locations: Vec<Vec<DirectiveLocation>>,
    pub(crate) roots: RootNames,
}
