//! The words of hovers.
ghost use Rattle.std.specs.Prelude.{◌≡◌, ◌++◌, IfOk, OnOk, string_bytes};
ghost use Rattle.gq_tree.specs.Views.{type_view};
ghost use Rattle.gq_document.specs.Views.{field_view};
ghost use Rattle.gq_query.specs.Words.{type_words, keyword_of, fragment_words, variable_words, field_words, condition_words};

use gq_document::SelectedField;
use gq_text::{NoMemory, OwnedText};
use gq_tree::TypeRef;
use gq_types::TypeKind;
use std::alloc::Global;

/// Puts a type behind the words, with nothing between its tokens.
#[tactic(auto, using(crate::proofs::TypeWords::type_words))]
fn put_type(type_ref: &TypeRef, words: &mut String) -> Result<(), NoMemory>
    ensures { OnOk result (string_bytes words.new ≡ string_bytes words.old ++ type_words (type_view type_ref.now)) }
{
    match type_ref {
        TypeRef::Named(name) => {
            words.push_str(name.text.as_str())?;
            Ok(())
        }
        TypeRef::List(item) => {
            words.push_str("[")?;
            put_type(item, words)?;
            words.push_str("]")?;
            Ok(())
        }
        TypeRef::NonNull(inner) => {
            put_type(inner, words)?;
            words.push_str("!")?;
            Ok(())
        }
    }
}

/// The keyword by which a type of that kind is defined.
fn keyword_of(kind: TypeKind) -> &'static str
    ensures { result.now ≡ keyword_of kind }
{
    match kind {
        TypeKind::Scalar => "scalar",
        TypeKind::Object => "type",
        TypeKind::Interface => "interface",
        TypeKind::Union => "union",
        TypeKind::Enum => "enum",
        TypeKind::InputObject => "input",
    }
}

/// As `fragment A on Query`.
pub(crate) fn fragment_words(alloc: Global, name: &str, on: &str) -> Result<OwnedText, NoMemory>
    ensures { IfOk result (λ words. words ≡ fragment_words name.now on.now) }
{
    let mut words = String::new(alloc);
    words.push_str("fragment ")?;
    words.push_str(name)?;
    words.push_str(" on ")?;
    words.push_str(on)?;
    Ok(OwnedText::from_string(words))
}

/// As `$a: Int!`.
pub(crate) fn variable_words(
    alloc: Global,
    name: &str,
    type_ref: &TypeRef,
) -> Result<OwnedText, NoMemory>
    ensures { IfOk result (λ words. words ≡ variable_words name.now (type_view type_ref.now)) }
{
    let mut words = String::new(alloc);
    words.push_str("$")?;
    words.push_str(name)?;
    words.push_str(": ")?;
    put_type(type_ref, &mut words)?;
    Ok(OwnedText::from_string(words))
}

/// Puts the type of a field behind the words.
fn put_field_type(field: SelectedField<'_>, words: &mut String) -> Result<(), NoMemory>
    ensures { OnOk result (string_bytes words.new ≡ string_bytes words.old ++ type_words (field_view field.entry).type_ref) }
{
    match field {
        SelectedField::Typename => {
            words.push_str("String!")?;
            Ok(())
        }
        SelectedField::Defined(field) => put_type(&field.definition.type_ref, words),
    }
}

/// As `Query.x: Int`.
pub(crate) fn field_words(
    alloc: Global,
    type_name: &str,
    name: &str,
    field: SelectedField<'_>,
) -> Result<OwnedText, NoMemory>
    ensures { IfOk result (λ words. words ≡ field_words type_name.now name.now (field_view field.entry).type_ref) }
{
    let mut words = String::new(alloc);
    words.push_str(type_name)?;
    words.push_str(".")?;
    words.push_str(name)?;
    words.push_str(": ")?;
    put_field_type(field, &mut words)?;
    Ok(OwnedText::from_string(words))
}

/// As `type Query`.
pub(crate) fn condition_words(
    alloc: Global,
    name: &str,
    kind: TypeKind,
) -> Result<OwnedText, NoMemory>
    ensures { IfOk result (λ words. words ≡ condition_words name.now kind) }
{
    let mut words = String::new(alloc);
    words.push_str(keyword_of(kind))?;
    words.push_str(" ")?;
    words.push_str(name)?;
    Ok(OwnedText::from_string(words))
}
