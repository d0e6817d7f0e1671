//! The sections of the GraphQL specification that hold the rules.
ghost use Rattle.std.specs.Prelude.{◌≡◌};
ghost use Rattle.gq_check.specs.Sections.{section_of};

use gq_fault::Code;

/// The section that holds the rule of a code, by its name in the links of the specification of October 2021.
pub fn section(code: Code) -> &'static str
    ensures { result.now ≡ section_of code }
{
    match code {
        Code::Syntax => "Document",
        Code::OverLimit => "Document",
        Code::SubscriptionOperation => "Subscription",
        Code::NoRootType => "Root-Operation-Types",
        Code::DefinedTwice => "Schema",
        Code::BadExtension => "Type-Extensions",
        Code::ReservedName => "Schema",
        Code::UnknownType => "Types",
        Code::WrongKindOfType => "Types",
        Code::EmptyOrRepeated => "Types",
        Code::BadImplementation => "Objects.Type-Validation",
        Code::EndlessInput => "Input-Objects.Circular-References",
        Code::NoQueryRoot => "Root-Operation-Types",
        Code::BadDirectiveOrDefault => "Type-System.Directives",
        Code::MixedFile => "Executable-Definitions",
        Code::OperationNameNotUnique => "Operation-Name-Uniqueness",
        Code::AnonymousOperationNotAlone => "Lone-Anonymous-Operation",
        Code::UnknownField => "Field-Selections",
        Code::FieldsDoNotMerge => "Field-Selection-Merging",
        Code::WrongSelections => "Leaf-Field-Selections",
        Code::UnknownArgument => "Argument-Names",
        Code::ArgumentNotUnique => "Argument-Uniqueness",
        Code::ArgumentMissing => "Required-Arguments",
        Code::FragmentNameNotUnique => "Fragment-Name-Uniqueness",
        Code::UnknownTypeCondition => "Fragment-Spread-Type-Existence",
        Code::ConditionNotComposite => "Fragments-On-Composite-Types",
        Code::FragmentNotUsed => "Fragments-Must-Be-Used",
        Code::UnknownFragment => "Fragment-spread-target-defined",
        Code::FragmentCycle => "Fragment-spreads-must-not-form-cycles",
        Code::SpreadNotPossible => "Fragment-spread-is-possible",
        Code::WrongValue => "Values-of-Correct-Type",
        Code::UnknownInputField => "Input-Object-Field-Names",
        Code::InputFieldNotUnique => "Input-Object-Field-Uniqueness",
        Code::InputFieldMissing => "Input-Object-Required-Fields",
        Code::UnknownDirective => "Directives-Are-Defined",
        Code::DirectiveInWrongPlace => "Directives-Are-In-Valid-Locations",
        Code::DirectiveRepeated => "Directives-Are-Unique-Per-Location",
        Code::VariableNotUnique => "Variable-Uniqueness",
        Code::VariableNotOfInputType => "Variables-Are-Input-Types",
        Code::VariableNotDefined => "All-Variable-Uses-Defined",
        Code::VariableNotUsed => "All-Variables-Used",
        Code::VariableNotAllowedHere => "All-Variable-Usages-are-Allowed",
    }
}
