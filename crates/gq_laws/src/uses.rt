//! A law of the uses of variables.
ghost use Rattle.gq_laws.specs.Renaming.Uses.{UsesAreThoseOfTheRules};

/// The uses of a variable in a definition, as an index has them, are its uses by the rules on variables (GraphQL,
/// October 2021, section 5.8): in the operation or the fragment that the definition is.
pub fn uses_are_those_of_the_rules()
    ensures { UsesAreThoseOfTheRules }
{}
