//! The forms of literals (GraphQL, October 2021, section 2.9).
ghost use Rattle.std.specs.Prelude.{◌≡◌, IfSome, IfNone, false, map};
ghost use Rattle.gq_tree.specs.Forest.{row};
ghost use Rattle.gq_tree.specs.Plain.{erase_values, unnamed, object};
ghost use Rattle.gq_tree.specs.Views.{entry_view};
ghost use Rattle.gq_values.specs.Literals.{is_object_literal};
ghost use Rattle.gq_coerce.specs.Helping.Views.{bare};
ghost use Rattle.gq_coerce.specs.Helping.Forms.{IsForm};

use gq_tree::{ObjectField, Value};

/// What coercion asks of a literal first.
#[derive(Clone, Copy)]
pub(crate) enum Form<'a> {
    /// A variable, by its name.
    Variable(&'a str),
    Null,
    /// A list, by its items.
    List(&'a [Value]),
    /// Any other literal.
    Single,
}

/// The form of a literal.
#[tactic(auto, using(gq_tree::proofs::Trees::values))]
pub(crate) fn form_of(literal: &Value) -> Form<'_>
    ensures { IsForm (bare literal.now) result }
{
    match literal {
        Value::Variable(variable) => Form::Variable(variable.name.text.as_str()),
        Value::Int(_) => Form::Single,
        Value::Float(_) => Form::Single,
        Value::String(_) => Form::Single,
        Value::Boolean { .. } => Form::Single,
        Value::Null { .. } => Form::Null,
        Value::Enum(_) => Form::Single,
        Value::List { items, .. } => Form::List(items),
        Value::Object { .. } => Form::Single,
    }
}

/// The fields of an object literal.
#[tactic(auto, using(gq_tree::proofs::Trees::values))]
pub(crate) fn fields_of(literal: &Value) -> Option<&[ObjectField]>
    ensures some { IfSome result (λ fields. bare literal.now ≡ unnamed (object tt) (row (erase_values (map entry_view fields.now)))) }
    ensures none { IfNone result (is_object_literal (bare literal.now).label.says ≡ false) }
{
    match literal {
        Value::Variable(_) => None,
        Value::Int(_) => None,
        Value::Float(_) => None,
        Value::String(_) => None,
        Value::Boolean { .. } => None,
        Value::Null { .. } => None,
        Value::Enum(_) => None,
        Value::List { .. } => None,
        Value::Object { fields, .. } => Some(fields),
    }
}
