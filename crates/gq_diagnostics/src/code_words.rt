//! The words that `gqls check` prints and diagnostics tell.
ghost use Rattle.std.specs.Prelude.{◌≡◌};
ghost use Rattle.gq_diagnostics.specs.Words.{words_of};

use gq_fault::Code;

/// What is wrong where a rule does not hold, in a few words.
pub fn words(code: Code) -> &'static str
    ensures { result.now ≡ words_of code }
{
    match code {
        Code::Syntax => "syntax",
        Code::OverLimit => "over limit",
        Code::SubscriptionOperation => "subscription operation",
        Code::NoRootType => "no root type",
        Code::DefinedTwice => "defined twice",
        Code::BadExtension => "bad extension",
        Code::ReservedName => "reserved name",
        Code::UnknownType => "unknown type",
        Code::WrongKindOfType => "wrong kind of type",
        Code::EmptyOrRepeated => "empty or repeated",
        Code::BadImplementation => "bad implementation",
        Code::EndlessInput => "endless input",
        Code::NoQueryRoot => "no query root",
        Code::BadDirectiveOrDefault => "bad directive or default",
        Code::MixedFile => "mixed file",
        Code::OperationNameNotUnique => "operation name not unique",
        Code::AnonymousOperationNotAlone => "anonymous operation not alone",
        Code::UnknownField => "unknown field",
        Code::FieldsDoNotMerge => "fields do not merge",
        Code::WrongSelections => "wrong selections",
        Code::UnknownArgument => "unknown argument",
        Code::ArgumentNotUnique => "argument not unique",
        Code::ArgumentMissing => "argument missing",
        Code::FragmentNameNotUnique => "fragment name not unique",
        Code::UnknownTypeCondition => "unknown type condition",
        Code::ConditionNotComposite => "condition not composite",
        Code::FragmentNotUsed => "fragment not used",
        Code::UnknownFragment => "unknown fragment",
        Code::FragmentCycle => "fragment cycle",
        Code::SpreadNotPossible => "spread not possible",
        Code::WrongValue => "wrong value",
        Code::UnknownInputField => "unknown input field",
        Code::InputFieldNotUnique => "input field not unique",
        Code::InputFieldMissing => "input field missing",
        Code::UnknownDirective => "unknown directive",
        Code::DirectiveInWrongPlace => "directive in wrong place",
        Code::DirectiveRepeated => "directive repeated",
        Code::VariableNotUnique => "variable not unique",
        Code::VariableNotOfInputType => "variable not of input type",
        Code::VariableNotDefined => "variable not defined",
        Code::VariableNotUsed => "variable not used",
        Code::VariableNotAllowedHere => "variable not allowed here",
    }
}
