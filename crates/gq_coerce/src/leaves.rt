//! Results of leaf types (GraphQL, October 2021, section 6.4.3, "Result Coercion", with sections 3.5 and 3.9).
ghost use Rattle.std.specs.Prelude.{◌≡◌, IfOk, Some, None, is_some, if◌then◌else◌};
ghost use Rattle.std.specs.Option.{option_map};
ghost use Rattle.gq_meaning.specs.Values.{number};
ghost use Rattle.gq_table.specs.Views.{leaf_view};
ghost use Rattle.gq_types.specs.Joined.{kind_named};
ghost use Rattle.gq_types.specs.Look.{types_view};
ghost use Rattle.gq_coerce.specs.Leaves.{at_built_in, at_enum, at_kind, leaf_at, is_composite_type};

use gq_table::Leaf;
use gq_table::numbers::{decimal, is_int};
use gq_text::{NoMemory, SmallText};
use gq_types::{TypeKind, Types, is_built_in_scalar};
use gq_values::fitting::is_int_32;
use std::alloc::Global;

/// What a result is written as at the leaf type of that name, where it fits.
pub fn leaf_at(
    alloc: Global,
    types: &Types,
    name: &str,
    leaf: &Leaf,
) -> Result<Option<Leaf>, NoMemory>
    ensures { IfOk result (λ o. option_map leaf_view o ≡ leaf_at (types_view types.now) name.now (leaf_view leaf.now)) }
{
    if is_built_in_scalar(name) {
        return at_built_in(alloc, name, leaf);
    }
    if is_at_kind(types, name, leaf) {
        return Ok(Some(leaf.copied(alloc)?));
    }
    Ok(None)
}

/// Whether a result fits the leaf type of that name.
pub fn is_leaf_of(types: &Types, name: &str, leaf: &Leaf) -> bool
    ensures { result ≡ is_some (leaf_at (types_view types.now) name.now (leaf_view leaf.now)) }
{
    if is_built_in_scalar(name) {
        return is_built_in(name, leaf);
    }
    is_at_kind(types, name, leaf)
}

/// Whether selections stand below what is of the type of that name.
pub fn is_composite(types: &Types, name: &str) -> bool
    ensures { result ≡ is_composite_type (types_view types.now) name.now }
{
    if is_built_in_scalar(name) {
        return false;
    }
    match types.kind(name) {
        Some(kind) => kind.is_composite(),
        None => false,
    }
}

fn at_built_in(alloc: Global, name: &str, leaf: &Leaf) -> Result<Option<Leaf>, NoMemory>
    ensures { IfOk result (λ o. option_map leaf_view o ≡ at_built_in name.now (leaf_view leaf.now)) }
{
    match leaf {
        Leaf::Boolean(b) => {
            if name == "Boolean" {
                Ok(Some(Leaf::Boolean(*b)))
            } else {
                Ok(None)
            }
        }
        Leaf::Number(spelling) => number_at(alloc, name, spelling),
        Leaf::Text(text) => {
            if name == "String" || name == "ID" {
                Ok(Some(Leaf::Text(text.copied(alloc)?)))
            } else {
                Ok(None)
            }
        }
    }
}

fn number_at(alloc: Global, name: &str, spelling: &SmallText) -> Result<Option<Leaf>, NoMemory>
    ensures { IfOk result (λ o. option_map leaf_view o ≡ at_built_in name.now (number spelling.now)) }
{
    if name == "Int" {
        if is_int(spelling.as_str()) && is_int_32(spelling.as_str()) {
            let text = decimal(alloc, spelling.as_str())?;
            return Ok(Some(Leaf::Number(text)));
        }
        return Ok(None);
    }
    if name == "Float" {
        return Ok(Some(Leaf::Number(spelling.copied(alloc)?)));
    }
    if name == "ID" && is_int(spelling.as_str()) {
        return Ok(Some(Leaf::Text(spelling.copied(alloc)?)));
    }
    Ok(None)
}

fn is_built_in(name: &str, leaf: &Leaf) -> bool
    ensures { result ≡ is_some (at_built_in name.now (leaf_view leaf.now)) }
{
    match leaf {
        Leaf::Boolean(_) => name == "Boolean",
        Leaf::Number(spelling) => is_number_of(name, spelling.as_str()),
        Leaf::Text(_) => name == "String" || name == "ID",
    }
}

fn is_number_of(name: &str, spelling: &str) -> bool
    ensures { result ≡ is_some (at_built_in name.now (number spelling.now)) }
{
    if name == "Int" {
        return is_int(spelling) && is_int_32(spelling);
    }
    if name == "Float" {
        return true;
    }
    name == "ID" && is_int(spelling)
}

/// Whether a result fits a type that is no built-in scalar. It is then written as it is.
fn is_at_kind(types: &Types, name: &str, leaf: &Leaf) -> bool
    ensures { at_kind (types_view types.now) name.now (kind_named (types_view types.now) name.now) (leaf_view leaf.now) ≡ (if result then Some (leaf_view leaf.now) else None) }
{
    match types.kind(name) {
        Some(TypeKind::Scalar) => true,
        Some(TypeKind::Enum) => is_enum_value(types, name, leaf),
        Some(TypeKind::Object) => false,
        Some(TypeKind::Interface) => false,
        Some(TypeKind::Union) => false,
        Some(TypeKind::InputObject) => false,
        None => false,
    }
}

fn is_enum_value(types: &Types, name: &str, leaf: &Leaf) -> bool
    ensures { at_enum (types_view types.now) name.now (leaf_view leaf.now) ≡ (if result then Some (leaf_view leaf.now) else None) }
{
    match leaf {
        Leaf::Boolean(_) => false,
        Leaf::Number(_) => false,
        Leaf::Text(text) => types.has_value(name, text.as_str()),
    }
}
