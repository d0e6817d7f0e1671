//! Values (GraphQL, October 2021, section 2.9), and what holds them: arguments and directives. Spans are in bytes of
//! the text.
ghost use Rattle.std.specs.Prelude.{◌≡◌};
ghost use Rattle.gq_tree.specs.Views.{value_view};
ghost use Rattle.gq_tree.specs.Wrapping.{is_null};

use crate::tree::Name;
use gq_text::{SmallText, Span};

/// The spelling of a number or of a string, its quotes included, and its place.
#[derive(Drop)]
pub struct Literal {
    pub text: SmallText,
    pub span: Span,
}

/// A variable (section 2.10). Its span goes from the `$` to the end of the name.
#[derive(Drop)]
pub struct Variable {
    pub name: Name,
    pub span: Span,
}

/// A value (section 2.9). The span of a list goes from its opening bracket to the end of the closing one (section 2.9.7),
/// that of an input object from its opening brace to the end of the closing one (section 2.9.8).
#[derive(Drop)]
#[cycle(value)]
pub enum Value {
    Variable(Variable),
    Int(Literal),
    Float(Literal),
    String(Literal),
    Boolean {
        value: bool,
        span: Span,
    },
    Null {
        span: Span,
    },
    Enum(Name),
    List {
        items: Vec<Value>,
        span: Span,
    },
    Object {
        fields: Vec<ObjectField>,
        span: Span,
    },
}

impl Value {
    /// Whether it is the literal null (section 2.9.5).
    #[tactic(auto, using(crate::proofs::Trees::values))]
    pub fn is_null(&self) -> bool
        ensures { result ≡ is_null (value_view self.now).label.says }
    {
        match self {
            Value::Variable(_) => false,
            Value::Int(_) => false,
            Value::Float(_) => false,
            Value::String(_) => false,
            Value::Boolean { .. } => false,
            Value::Null { .. } => true,
            Value::Enum(_) => false,
            Value::List { .. } => false,
            Value::Object { .. } => false,
        }
    }
}

/// A field of an input object value (section 2.9.8).
#[derive(Drop)]
#[cycle(value)]
pub struct ObjectField {
    pub name: Name,
    pub value: Value,
}

/// An argument (section 2.6).
#[derive(Drop)]
pub struct Argument {
    pub name: Name,
    pub value: Value,
}

/// A directive (section 2.12). Its span goes from the `@` to the end of its name or of its arguments.
#[derive(Drop)]
pub struct Directive {
    pub name: Name,
    pub arguments: Vec<Argument>,
    pub span: Span,
}
