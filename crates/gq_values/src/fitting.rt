//! Whether a literal fits a type (GraphQL, October 2021, section 5.6.1).
ghost use Rattle.std.specs.Prelude.{◌≡◌, ◌≤◌, ◌^◌, nat_le};
ghost use Rattle.gq_tree.specs.Views.{type_view, value_view};
ghost use Rattle.gq_types.specs.Joined.{kind_named};
ghost use Rattle.gq_values.specs.Literals.{digits_from, is_int_32, is_list, fits_built_in, fits_enum, fits_kind, fits};
ghost use Rattle.gq_types.specs.Look.{types_view};
ghost use Rattle.gq_values.specs.LiteralPlaces.{fits_input_object};

use gq_tree::{TypeRef, Value};
use gq_types::{TypeKind, Types, is_built_in_scalar};

/// Whether these decimal digits spell a number up to the limit.
fn are_digits_within(digits: &[u8], limit: u64) -> bool
    requires { limit ≤ 2 ^ 32 }
    ensures { result ≡ nat_le (digits_from 0 digits.now) limit }
{
    let mut value: u64 = 0;
    for digit in digits {
        value = value * 10 + digit.saturating_sub(48) as u64;
        if value > limit {
            return false;
        }
    }
    true
}

/// Whether the spelling of an Int is of one in 32 bits (section 3.5.1).
pub fn is_int_32(text: &str) -> bool
    ensures { result ≡ is_int_32 text.now }
{
    match text.as_bytes() {
        [] => false,
        [45, digits @ ..] => are_digits_within(digits, 2_147_483_648),
        digits => are_digits_within(digits, 2_147_483_647),
    }
}

#[tactic(auto, using(gq_tree::proofs::Trees::values))]
fn is_list(value: &Value) -> bool
    ensures { result ≡ is_list (value_view value.now).label.says }
{
    match value {
        Value::Variable(_) => false,
        Value::Int(_) => false,
        Value::Float(_) => false,
        Value::String(_) => false,
        Value::Boolean { .. } => false,
        Value::Null { .. } => false,
        Value::Enum(_) => false,
        Value::List { .. } => true,
        Value::Object { .. } => false,
    }
}

#[tactic(auto, using(gq_tree::proofs::Trees::values))]
fn fits_built_in(name: &str, value: &Value) -> bool
    ensures { result ≡ fits_built_in name.now (value_view value.now).label.says }
{
    match value {
        Value::Variable(_) => true,
        Value::Int(spelling) => {
            (name == "Int" && is_int_32(spelling.text.as_str())) || name == "Float" || name == "ID"
        }
        Value::Float(_) => name == "Float",
        Value::String(_) => name == "String" || name == "ID",
        Value::Boolean { .. } => name == "Boolean",
        Value::Null { .. } => true,
        Value::Enum(_) => false,
        Value::List { .. } => false,
        Value::Object { .. } => false,
    }
}

#[tactic(auto, using(gq_tree::proofs::Trees::values))]
fn fits_enum(types: &Types, name: &str, value: &Value) -> bool
    ensures { result ≡ fits_enum (types_view types.now) name.now (value_view value.now).label.says }
{
    match value {
        Value::Variable(_) => true,
        Value::Int(_) => false,
        Value::Float(_) => false,
        Value::String(_) => false,
        Value::Boolean { .. } => false,
        Value::Null { .. } => true,
        Value::Enum(literal) => types.has_value(name, literal.text.as_str()),
        Value::List { .. } => false,
        Value::Object { .. } => false,
    }
}

#[tactic(auto, using(gq_tree::proofs::Trees::values))]
fn fits_input_object(value: &Value) -> bool
    ensures { result ≡ fits_input_object (value_view value.now).label.says }
{
    match value {
        Value::Variable(_) => true,
        Value::Int(_) => false,
        Value::Float(_) => false,
        Value::String(_) => false,
        Value::Boolean { .. } => false,
        Value::Null { .. } => true,
        Value::Enum(_) => false,
        Value::List { .. } => false,
        Value::Object { .. } => true,
    }
}

fn fits_named(types: &Types, name: &str, value: &Value) -> bool
    ensures { result ≡ fits_kind (types_view types.now) name.now (kind_named (types_view types.now) name.now) (value_view value.now).label.says }
{
    match types.kind(name) {
        Some(TypeKind::Scalar) => !is_built_in_scalar(name) || fits_built_in(name, value),
        Some(TypeKind::Enum) => fits_enum(types, name, value),
        Some(TypeKind::InputObject) => fits_input_object(value),
        Some(TypeKind::Object) => true,
        Some(TypeKind::Interface) => true,
        Some(TypeKind::Union) => true,
        None => true,
    }
}

/// Whether the literal fits the type by its outermost form.
#[tactic(auto, using(gq_tree::proofs::Trees::types))]
pub fn fits(types: &Types, type_ref: &TypeRef, value: &Value) -> bool
    ensures { result ≡ fits (types_view types.now) (type_view type_ref.now) (value_view value.now).label.says }
{
    match type_ref {
        TypeRef::Named(name) => fits_named(types, name.text.as_str(), value),
        TypeRef::List(item) => {
            if is_list(value) || value.is_null() {
                return true;
            }
            fits(types, item, value)
        }
        TypeRef::NonNull(inner) => {
            if value.is_null() {
                return false;
            }
            fits(types, inner, value)
        }
    }
}
