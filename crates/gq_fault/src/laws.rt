//! What the numbers of codes mean.
ghost use Rattle.gq_fault.specs.Laws.{NumbersTellCodes};

/// Two codes of one number are the same code.
pub fn numbers_tell_codes()
    ensures { NumbersTellCodes }
{}
