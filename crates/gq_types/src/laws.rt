//! What the meaning of names says of the entries.
ghost use Rattle.gq_types.specs.Laws.{TypesHaveKinds, NumbersDefineTypes};

/// A name has a number exactly where it has a kind.
pub fn types_have_kinds()
    ensures { TypesHaveKinds }
{}

/// At the number of a name stands a definition of a type of that name, and its kind is the name's.
pub fn numbers_define_types()
    ensures { NumbersDefineTypes }
{}
