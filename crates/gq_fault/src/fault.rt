//! Places at which a rule does not hold.

use crate::code::Code;

/// The bytes from `start` up to `end` of a document, and the rule that does not hold there. `file` is the number of the
/// document in its project, counted from 0. Faults are in the order of their files, starts, codes and ends.
#[derive(Clone, Copy, Debug, PartialEq, Eq, PartialOrd, Ord)]
pub struct Fault {
    pub file: usize,
    pub start: usize,
    pub code: Code,
    pub end: usize,
}
