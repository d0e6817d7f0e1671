//! What is compared of two fields under one response key (section 5.3.2).
ghost use Rattle.std.specs.Prelude.{◌≡◌, ◌↔◌, IsTrue, IfOk, option_map};
ghost use Rattle.gq_tree.specs.Views.{type_view};
ghost use Rattle.gq_types.specs.Look.{types_view, text_of};
ghost use Rattle.gq_types.specs.LookUps.{has_kind};
ghost use Rattle.gq_types.specs.declared.entry.TypeKind.TheVariants as kind;
ghost use Rattle.gq_document.specs.FieldSets.{key};
ghost use Rattle.gq_merging.specs.FieldsMerge.{can_coincide, leads_on, Differ};
ghost use Rattle.gq_merging.specs.Helping.Comparisons.{known_type, same_ends, same_shapes, shapes_differ, is_no_later};
ghost use Rattle.gq_merging.specs.Helping.Views.{field_at};
ghost use Rattle.gq_merging.specs.declared.purpose.Purpose.TheVariants.{Names};

use crate::purpose::Purpose;
use crate::same_arguments::have_same_arguments;
use crate::sets::StandingField;
use gq_document::{is_composite_named, selected_field};
use gq_text::NoMemory;
use gq_tree::{TypeRef, base_name};
use gq_types::{TypeKind, Types};
use std::alloc::Global;

/// The response key: the alias or, without one, the name.
pub(crate) fn key<'a>(field: &StandingField<'a>) -> &'a str
    ensures { result.now ≡ key (field_at field.now) }
{
    match &field.field.alias {
        Some(alias) => alias.text.as_str(),
        None => field.field.name.text.as_str(),
    }
}

/// Whether the one stands no later than the other: by the document, then by the place.
pub(crate) fn is_no_later(first: &StandingField<'_>, later: &StandingField<'_>) -> bool
    ensures { result ≡ is_no_later (field_at first.now) (field_at later.now) }
{
    first.file < later.file
        || (first.file == later.file && first.field.span.start <= later.field.span.start)
}

/// Whether the name is that of an object type.
pub(crate) fn is_object(types: &Types, type_name: &str) -> bool
    ensures { result ≡ has_kind (types_view types.now) kind.Object type_name.now }
{
    match types.kind(type_name) {
        Some(kind) => TypeKind::Object.is(kind),
        None => false,
    }
}

/// Whether both types are known, and are equal or one of them is no object type.
pub(crate) fn can_coincide(types: &Types, left: Option<&str>, right: Option<&str>) -> bool
    ensures { result ≡ can_coincide (types_view types.now) (text_of left.entry) (text_of right.entry) }
{
    match (left, right) {
        (Some(left), Some(right)) => {
            types.kind(left).is_some()
                && types.kind(right).is_some()
                && (left == right || !(is_object(types, left) && is_object(types, right)))
        }
        (Some(_), None) => false,
        (None, Some(_)) => false,
        (None, None) => false,
    }
}

/// Whether what stands in the braces of the two is compared too.
pub(crate) fn leads_on(
    types: &Types,
    purpose: Purpose,
    left: &StandingField<'_>,
    right: &StandingField<'_>,
) -> bool
    ensures { result ≡ leads_on (types_view types.now) purpose (field_at left.now) (field_at right.now) }
{
    match purpose {
        Purpose::Shapes => true,
        Purpose::Names => can_coincide(types, left.parent, right.parent),
    }
}

/// The type of a field, where the field and the type at the end are known.
pub(crate) fn known_type<'a>(types: &'a Types, field: &StandingField<'_>) -> Option<&'a TypeRef>
    ensures { option_map (λ t. type_view t.now) result ≡ known_type (types_view types.now) (field_at field.now) }
{
    let found = selected_field(types, field.parent, field.field.name.text.as_str())?;
    let type_ref = found.type_ref(types);
    if types.kind(base_name(type_ref)).is_some() {
        Some(type_ref)
    } else {
        None
    }
}

/// Whether both names are of composite types, or are one name of a leaf type.
fn have_same_end(types: &Types, left: &str, right: &str) -> bool
    ensures { result ≡ same_ends (types_view types.now) left.now right.now }
{
    if is_composite_named(types, left) {
        is_composite_named(types, right)
    } else {
        !is_composite_named(types, right) && left == right
    }
}

/// Whether the two types have one response shape.
#[tactic(auto, using(gq_tree::proofs::Trees::types))]
pub(crate) fn have_same_shape(types: &Types, left: &TypeRef, right: &TypeRef) -> bool
    ensures { result ≡ same_shapes (types_view types.now) (type_view left.now) (type_view right.now) }
{
    match left {
        TypeRef::Named(left) => match right {
            TypeRef::Named(right) => {
                have_same_end(types, left.text.as_str(), right.text.as_str())
            }
            TypeRef::List(_) => false,
            TypeRef::NonNull(_) => false,
        },
        TypeRef::List(left) => match right {
            TypeRef::Named(_) => false,
            TypeRef::List(right) => have_same_shape(types, left, right),
            TypeRef::NonNull(_) => false,
        },
        TypeRef::NonNull(left) => match right {
            TypeRef::Named(_) => false,
            TypeRef::List(_) => false,
            TypeRef::NonNull(right) => have_same_shape(types, left, right),
        },
    }
}

/// Whether the types of both fields are known and have different shapes.
fn shapes_differ(types: &Types, left: &StandingField<'_>, right: &StandingField<'_>) -> bool
    ensures { result ≡ shapes_differ (types_view types.now) (field_at left.now) (field_at right.now) }
{
    match known_type(types, left) {
        Some(left) => match known_type(types, right) {
            Some(right) => !have_same_shape(types, left, right),
            None => false,
        },
        None => false,
    }
}

/// Whether the parents can be one type, and the fields are different ones or have different arguments.
fn calls_differ(
    alloc: Global,
    types: &Types,
    left: &StandingField<'_>,
    right: &StandingField<'_>,
) -> Result<bool, NoMemory>
    ensures { IfOk result (λ differ. IsTrue differ ↔ Differ (types_view types.now) Names (field_at left.now) (field_at right.now)) }
{
    if !can_coincide(types, left.parent, right.parent) {
        return Ok(false);
    }
    if left.field.name.text.as_str() != right.field.name.text.as_str() {
        return Ok(true);
    }
    let same = have_same_arguments(alloc, &left.field.arguments, &right.field.arguments)?;
    Ok(!same)
}

/// Whether two fields that meet for this purpose break the rule.
pub(crate) fn differ(
    alloc: Global,
    types: &Types,
    purpose: Purpose,
    left: &StandingField<'_>,
    right: &StandingField<'_>,
) -> Result<bool, NoMemory>
    ensures { IfOk result (λ differ. IsTrue differ ↔ Differ (types_view types.now) purpose (field_at left.now) (field_at right.now)) }
{
    match purpose {
        Purpose::Shapes => Ok(shapes_differ(types, left, right)),
        Purpose::Names => calls_differ(alloc, types, left, right),
    }
}
