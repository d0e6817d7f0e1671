//! The fields that selections name (GraphQL, October 2021, section 5.3).
ghost use Rattle.std.specs.Prelude.{◌≡◌, map};
ghost use Rattle.std.specs.Option.{option_map};
ghost use Rattle.gq_tree.specs.Views.{type_view, input_view};
ghost use Rattle.gq_types.specs.Look.{types_view, text_of};
ghost use Rattle.gq_document.specs.Selections.{is_composite_named, field_on, selected_field};
ghost use Rattle.gq_tree.specs.NamedTypes.{base_name};
ghost use Rattle.gq_document.specs.Views.{field_view, selected_field_view};

use gq_tree::{TypeRef, base_name};
use gq_types::{Arguments, DefinedField, Types};

/// The field that a selection names: one of a type's definition, or `__typename`, which every composite type has.
#[derive(Clone, Copy)]
pub enum SelectedField<'a> {
    Typename,
    Defined(DefinedField<'a>),
}

impl<'a> SelectedField<'a> {
    /// The arguments that its definition has.
    pub fn arguments(self) -> Arguments<'a>
        ensures { map input_view result.all.now ≡ (field_view self.entry).arguments }
    {
        match self {
            SelectedField::Typename => Arguments::over(&[]),
            SelectedField::Defined(field) => field.arguments,
        }
    }

    /// Its type, where `__typename` has that of these types.
    pub fn type_ref(self, types: &'a Types) -> &'a TypeRef
        ensures { type_view result.now ≡ (field_view self.entry).type_ref }
    {
        match self {
            SelectedField::Typename => types.typename_type(),
            SelectedField::Defined(field) => &field.definition.type_ref,
        }
    }

    /// The name of its type inside lists and types without null.
    pub fn base_name(self) -> &'a str
        ensures { result.now ≡ base_name (field_view self.entry).type_ref }
    {
        match self {
            SelectedField::Typename => "String",
            SelectedField::Defined(field) => base_name(&field.definition.type_ref),
        }
    }
}

/// Whether it is the name of a type with selections below it (section 5.3.3).
pub fn is_composite_named(types: &Types, type_name: &str) -> bool
    ensures { result ≡ is_composite_named (types_view types.now) type_name.now }
{
    match types.kind(type_name) {
        Some(kind) => kind.is_composite(),
        None => false,
    }
}

/// The field of that name of the type of that name.
pub fn field_on<'a>(types: &'a Types, type_name: &str, name: &str) -> Option<SelectedField<'a>>
    ensures { selected_field_view result ≡ field_on (types_view types.now) type_name.now name.now }
{
    if name == "__typename" {
        if is_composite_named(types, type_name) {
            return Some(SelectedField::Typename);
        }
        return None;
    }
    let number = types.type_number(type_name)?;
    let field = types.defined_field(number, name)?;
    Some(SelectedField::Defined(field))
}

/// The field that a selection names, where the type of its parent is known.
pub fn selected_field<'a>(
    types: &'a Types,
    parent: Option<&str>,
    name: &str,
) -> Option<SelectedField<'a>>
    ensures { selected_field_view result ≡ selected_field (types_view types.now) (text_of parent.entry) name.now }
{
    match parent {
        Some(type_name) => field_on(types, type_name, name),
        None => None,
    }
}

/// The name of the type of a field of that name, without lists and non-null.
pub(crate) fn type_below<'a>(types: &'a Types, parent: Option<&str>, name: &str) -> Option<&'a str>
    ensures { text_of result ≡ option_map (λ f. base_name f.type_ref) (selected_field (types_view types.now) (text_of parent.entry) name.now) }
{
    match selected_field(types, parent, name) {
        Some(field) => Some(field.base_name()),
        None => None,
    }
}
