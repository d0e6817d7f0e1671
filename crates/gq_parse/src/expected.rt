//! What may stand next in a document, and what one token does to it.

/// A row of parts of one kind, between an opening and a closing punctuator.
#[derive(Clone, Copy)]
pub(crate) enum Row {
    /// Arguments, with or without variables (section 2.6).
    Arguments { constant: bool },
    /// VariableDefinitions (section 2.10).
    Variables,
    /// ArgumentsDefinition (section 3.6.1).
    ArgumentDefinitions,
    /// InputFieldsDefinition (section 3.10).
    InputFields,
    /// FieldsDefinition (section 3.6).
    Fields,
    /// EnumValuesDefinition (section 3.9).
    EnumValues,
    /// The root operation types of a schema (section 3.3).
    Roots,
}

/// A series of parts with a punctuator between each two.
#[derive(Clone, Copy)]
pub(crate) enum Series {
    /// The types of an ImplementsInterfaces (section 3.6).
    Interfaces,
    /// The types of a UnionMemberTypes (section 3.8).
    Members,
    /// DirectiveLocations (section 3.13).
    Locations,
}

/// What is expected: a phrase of the grammar, or what is left of one.
#[derive(Clone, Copy)]
pub(crate) enum Symbol {
    AnyName,
    /// A Name but not `on`.
    FragmentName,
    /// A Name but not `true`, `false` or `null`.
    EnumValueName,
    /// The word `on`.
    OnWord,
    Colon,
    AtSign,
    CloseBracket,
    Value { constant: bool },
    /// Values up to the bracket that closes their list.
    MoreValues { constant: bool },
    /// Object fields up to the brace that closes their object.
    MoreObjectFields { constant: bool },
    /// Directives, or none.
    Directives { constant: bool },
    /// At least one constant directive.
    SomeDirectives,
    /// A whole row, or none.
    OptionalRow(Row),
    /// A whole row.
    WholeRow(Row),
    /// A row of at least one part, behind its opening punctuator.
    FirstOf(Row),
    /// The parts of a row up to its closing punctuator.
    MoreOf(Row),
    /// Directives and a row, at least one of the two.
    PartsWith(Row),
    /// A series, with its punctuator before the first part too where it stands there.
    LedSeries(Series),
    /// A series, from its first part on.
    SeriesPart(Series),
    /// What is left of a series, behind a part.
    MoreParts(Series),
    OptionalDefault,
    AnyType,
    OptionalBang,
    OptionalName,
    /// What makes a field's first name its alias, or nothing.
    OptionalAlias,
    Set,
    OptionalSet,
    /// At least one selection, and the brace that closes the set.
    FirstSelection,
    /// Selections, and the brace that closes the set.
    MoreSelections,
    /// A spread or an inline fragment, behind its dots.
    AfterDots,
    /// A Definition (section 2.2).
    Definition,
    /// A type system definition without its description.
    Described,
    /// A type system extension, behind `extend`.
    Extension,
    /// The name and the directives of a scalar that is extended.
    ExtendedScalar,
    /// At least one part of an extended type with fields, behind its name.
    TypeParts,
    /// At least one part of an extended union, behind its name.
    UnionParts,
    OptionalImplements,
    OptionalMembers,
    /// `on`, with or without `repeatable` before it.
    OptionalRepeatable,
}

/// What a token does where a symbol is expected.
#[derive(Clone, Copy)]
pub(crate) enum Move {
    /// It is taken, and nothing more of the symbol is expected.
    Takes,
    /// It is taken, and these symbols are expected behind it, the first one next.
    TakesThen(Symbol),
    TakesThenTwo(Symbol, Symbol),
    TakesThenThree(Symbol, Symbol, Symbol),
    TakesThenFour(Symbol, Symbol, Symbol, Symbol),
    TakesThenFive(Symbol, Symbol, Symbol, Symbol, Symbol),
    TakesThenSix(Symbol, Symbol, Symbol, Symbol, Symbol, Symbol),
    /// The symbol ends before it.
    Skips,
    /// It cannot stand here.
    Stops,
}

/// The words with a meaning in some place. Where it has none, a word is a Name like all others.
#[derive(Clone, Copy)]
pub(crate) enum Word {
    Query,
    Mutation,
    Subscription,
    Fragment,
    On,
    True,
    False,
    Null,
    Extend,
    Schema,
    Scalar,
    /// `type`.
    Object,
    Interface,
    Union,
    Enum,
    Input,
    Directive,
    Implements,
    Repeatable,
    /// A DirectiveLocation (section 3.13).
    Location,
    /// None of these.
    Other,
}
