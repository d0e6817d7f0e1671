//! What two fields under one response key are compared for.

/// Fields are compared for the shapes of their types, and for their names and arguments (section 5.3.2).
#[derive(Clone, Copy, Debug, PartialEq, Eq)]
pub enum Purpose {
    Shapes,
    Names,
}
