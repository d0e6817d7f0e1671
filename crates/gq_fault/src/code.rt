//! The rules that validation knows, each with a code.
ghost use Rattle.std.specs.Prelude.{◌≡◌};
ghost use Rattle.std.specs.Bool.{◌==◌};
ghost use Rattle.std.specs.Cmp.{partial_order_from_own_ties, unsigned_ties};
ghost use Rattle.std.specs.Cmp.Rules.{comparing};
ghost use Rattle.std.specs.Ordering.{nat_cmp, on, as_partial_cmp};
ghost use Rattle.std.proofs.Common.{rules};
ghost use Rattle.gq_fault.specs.Codes.{number_of, text_of};

use std::cmp::Ordering;

/// The rule that does not hold at a place. Sections are those of the specification of October 2021.
#[derive(Clone, Copy, Debug)]
pub enum Code {
    /// The text is no document (section 2.2).
    Syntax,
    /// The text has too many tokens, or is nested too deep.
    OverLimit,
    /// An operation is a subscription.
    SubscriptionOperation,
    /// An operation is a mutation, and the schema has no root type for mutations (section 3.3.1).
    NoRootType,
    /// A type, a directive or the schema is defined twice (section 3.3).
    DefinedTwice,
    /// An extension is of a type that is not defined, or of another kind (section 3.4.3).
    BadExtension,
    /// A name is defined that begins with `__` (section 3.3).
    ReservedName,
    /// A type is named that nothing defines (section 3.4).
    UnknownType,
    /// A type of another kind has to stand there (sections 3.3.1, 3.6 to 3.10).
    WrongKindOfType,
    /// A definition has no fields, values or members, or has one of them twice (sections 3.3.1, 3.6 to 3.10).
    EmptyOrRepeated,
    /// A type does not implement an interface that it declares (section 3.6).
    BadImplementation,
    /// A value of an input object would have no end (section 3.10).
    EndlessInput,
    /// The schema has no root type for queries (section 3.3.1).
    NoQueryRoot,
    /// A directive or a default value in the type system is not valid (sections 3.6.1, 3.10, 3.13).
    BadDirectiveOrDefault,
    /// A document with operations or fragments also has type system definitions (section 5.1.1).
    MixedFile,
    /// Two operations have one name (section 5.2.1.1).
    OperationNameNotUnique,
    /// An anonymous operation is not the only operation (section 5.2.2.1).
    AnonymousOperationNotAlone,
    /// The parent's type has no such field (section 5.3.1).
    UnknownField,
    /// Two fields of one response name cannot be merged (section 5.3.2).
    FieldsDoNotMerge,
    /// A leaf field has a selection set, or a field of a composite type has none (section 5.3.3).
    WrongSelections,
    /// The field or directive has no such argument (section 5.4.1).
    UnknownArgument,
    /// An argument is given twice (section 5.4.2).
    ArgumentNotUnique,
    /// A required argument is not given (section 5.4.2.1).
    ArgumentMissing,
    /// Two fragments have one name (section 5.5.1.1).
    FragmentNameNotUnique,
    /// The type of a type condition is not defined (section 5.5.1.2).
    UnknownTypeCondition,
    /// The type of a type condition is not composite (section 5.5.1.3).
    ConditionNotComposite,
    /// A fragment is spread nowhere (section 5.5.1.4).
    FragmentNotUsed,
    /// A spread names no fragment (section 5.5.2.1).
    UnknownFragment,
    /// A spread leads back to the fragment in which it stands (section 5.5.2.2).
    FragmentCycle,
    /// No object type is possible for the parent and for what is spread (section 5.5.2.3).
    SpreadNotPossible,
    /// A value does not fit the type of its place (section 5.6.1).
    WrongValue,
    /// The input object has no such field (section 5.6.2).
    UnknownInputField,
    /// An input field is given twice (section 5.6.3).
    InputFieldNotUnique,
    /// A required input field is not given (section 5.6.4).
    InputFieldMissing,
    /// A directive is not defined (section 5.7.1).
    UnknownDirective,
    /// A directive stands where it may not (section 5.7.2).
    DirectiveInWrongPlace,
    /// A directive that is not repeatable is given twice (section 5.7.3).
    DirectiveRepeated,
    /// Two variables of an operation have one name (section 5.8.1).
    VariableNotUnique,
    /// The type of a variable is no input type (section 5.8.2).
    VariableNotOfInputType,
    /// A variable is used that an operation does not define (section 5.8.3).
    VariableNotDefined,
    /// An operation defines a variable and does not use it (section 5.8.4).
    VariableNotUsed,
    /// The type of a variable does not fit its place (section 5.8.5).
    VariableNotAllowedHere,
}

impl Code {
    /// The place of the code among all codes, counted from 1. Codes are in the order of these numbers.
    pub fn number(self) -> u8
        ensures { result ≡ number_of self }
    {
        match self {
            Code::Syntax => 1,
            Code::OverLimit => 2,
            Code::SubscriptionOperation => 3,
            Code::NoRootType => 4,
            Code::DefinedTwice => 5,
            Code::BadExtension => 6,
            Code::ReservedName => 7,
            Code::UnknownType => 8,
            Code::WrongKindOfType => 9,
            Code::EmptyOrRepeated => 10,
            Code::BadImplementation => 11,
            Code::EndlessInput => 12,
            Code::NoQueryRoot => 13,
            Code::BadDirectiveOrDefault => 14,
            Code::MixedFile => 15,
            Code::OperationNameNotUnique => 16,
            Code::AnonymousOperationNotAlone => 17,
            Code::UnknownField => 18,
            Code::FieldsDoNotMerge => 19,
            Code::WrongSelections => 20,
            Code::UnknownArgument => 21,
            Code::ArgumentNotUnique => 22,
            Code::ArgumentMissing => 23,
            Code::FragmentNameNotUnique => 24,
            Code::UnknownTypeCondition => 25,
            Code::ConditionNotComposite => 26,
            Code::FragmentNotUsed => 27,
            Code::UnknownFragment => 28,
            Code::FragmentCycle => 29,
            Code::SpreadNotPossible => 30,
            Code::WrongValue => 31,
            Code::UnknownInputField => 32,
            Code::InputFieldNotUnique => 33,
            Code::InputFieldMissing => 34,
            Code::UnknownDirective => 35,
            Code::DirectiveInWrongPlace => 36,
            Code::DirectiveRepeated => 37,
            Code::VariableNotUnique => 38,
            Code::VariableNotOfInputType => 39,
            Code::VariableNotDefined => 40,
            Code::VariableNotUsed => 41,
            Code::VariableNotAllowedHere => 42,
        }
    }

    /// The code as it is printed: a letter and a number.
    pub fn as_str(self) -> &'static str
        ensures { result.now ≡ text_of self }
    {
        match self {
            Code::Syntax => "T1",
            Code::OverLimit => "T2",
            Code::SubscriptionOperation => "P1",
            Code::NoRootType => "P2",
            Code::DefinedTwice => "S1",
            Code::BadExtension => "S2",
            Code::ReservedName => "S3",
            Code::UnknownType => "S4",
            Code::WrongKindOfType => "S5",
            Code::EmptyOrRepeated => "S6",
            Code::BadImplementation => "S7",
            Code::EndlessInput => "S8",
            Code::NoQueryRoot => "S9",
            Code::BadDirectiveOrDefault => "S10",
            Code::MixedFile => "V1",
            Code::OperationNameNotUnique => "V2",
            Code::AnonymousOperationNotAlone => "V3",
            Code::UnknownField => "V4",
            Code::FieldsDoNotMerge => "V5",
            Code::WrongSelections => "V6",
            Code::UnknownArgument => "V7",
            Code::ArgumentNotUnique => "V8",
            Code::ArgumentMissing => "V9",
            Code::FragmentNameNotUnique => "V10",
            Code::UnknownTypeCondition => "V11",
            Code::ConditionNotComposite => "V12",
            Code::FragmentNotUsed => "V13",
            Code::UnknownFragment => "V14",
            Code::FragmentCycle => "V15",
            Code::SpreadNotPossible => "V16",
            Code::WrongValue => "V17",
            Code::UnknownInputField => "V18",
            Code::InputFieldNotUnique => "V19",
            Code::InputFieldMissing => "V20",
            Code::UnknownDirective => "V21",
            Code::DirectiveInWrongPlace => "V22",
            Code::DirectiveRepeated => "V23",
            Code::VariableNotUnique => "V24",
            Code::VariableNotOfInputType => "V25",
            Code::VariableNotDefined => "V26",
            Code::VariableNotUsed => "V27",
            Code::VariableNotAllowedHere => "V28",
        }
    }
}

/// Two codes are equal where their numbers are.
impl PartialEq for Code {
    ghost eq = { on number_of ◌==◌ };

    ghost laws = { Prim.search (comparing, rules) };

    fn eq(&self, other: &Code) -> bool {
        self.number() == other.number()
    }
}

impl Eq for Code {
    ghost laws = { Prim.search (comparing, rules) };
}

impl PartialOrd for Code {
    ghost partial_cmp = { as_partial_cmp (on number_of nat_cmp) };

    ghost laws = { partial_order_from_own_ties (Prim.search (comparing, rules)) (λ a b. unsigned_ties (number_of a) (number_of b)) };

    fn partial_cmp(&self, other: &Code) -> Option<Ordering> {
        Some(self.cmp(other))
    }
}

/// Codes are in the order of their numbers.
impl Ord for Code {
    ghost cmp = { on number_of nat_cmp };

    ghost total = { Prim.search (comparing, rules) };

    ghost matches_partial_cmp = { Prim.search (comparing, rules) };

    ghost matches_eq = { λ a b. unsigned_ties (number_of a) (number_of b) };

    fn cmp(&self, other: &Code) -> Ordering {
        self.number().cmp(&other.number())
    }
}
