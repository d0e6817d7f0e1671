//! Uses of variables, and the places at which they stand.

use gq_tree::Name;
use gq_values::ExpectedType;

/// A place in arguments or in a literal: what the value there is read at, and whether the place has a default value.
#[derive(Clone, Copy)]
pub struct Place<'a> {
    pub reading: ExpectedType<'a>,
    pub has_default: bool,
}

/// A use of a variable: its name, its place, and the number of the document that it stands in.
#[derive(Clone, Copy)]
pub struct Use<'a> {
    pub file: usize,
    pub name: &'a Name,
    pub place: Place<'a>,
}
