//! The executable definitions of a project over its type system (GraphQL, October 2021, sections 2.2 and 5).

use crate::definitions::{FragmentEntry, OperationEntry};
use gq_types::Types;

/// Operations and fragments over a type system, each kind in the order of documents and places.
#[derive(Clone, Copy)]
pub struct Executable<'a> {
    pub types: &'a Types,
    pub operations: &'a [OperationEntry<'a>],
    pub fragments: &'a [FragmentEntry<'a>],
}
