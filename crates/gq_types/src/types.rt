//! The type system of a project.
ghost use Rattle.std.specs.Prelude.{◌≡◌, ◌++◌, ◌<◌, [], Some, IfOk, IfSome, OnErr, OnOk, length, map, option_and_then, slice_get};
ghost use Rattle.std.specs.Option.{option_map};
ghost use Rattle.gq_tree.specs.Views.{type_view, input_view, field_definition_view};
ghost use Rattle.gq_types.specs.Arguments.{directive_arguments};
ghost use Rattle.gq_types.specs.Entries.{entries_view};
ghost use Rattle.gq_types.specs.BuiltIn.{built_in};
ghost use Rattle.gq_types.specs.ErasedEntries.{erase_entry};
ghost use Rattle.gq_types.specs.Outlines.{DiffersAt};
ghost use Rattle.gq_types.specs.Joined.{type_number, kind_named, directive_number, schema_number, fields_in_body, inputs_of};
ghost use Rattle.gq_types.specs.Look.{types_view, owner_at, text_of, field_of, input_of, joined_numbers, directive_of};
ghost use Rattle.gq_types.specs.LookUps.{field_in, declares_in};
ghost use Rattle.gq_types.specs.Names.{field_named, input_named, has_value, has_member, declares, directive_named};
ghost use Rattle.gq_types.specs.Typename.{typename_type};
ghost use Rattle.gq_types.specs.Required.{is_field_missing};
ghost use Rattle.gq_types.specs.Helping.RequiredNames.{required_after};
ghost use Rattle.gq_types.specs.Helping.Index.{arguments_at};
ghost use Rattle.gq_types.specs.Roots.{root_of, default_root, entry_for, is_object};
ghost use Rattle.gq_types.specs.Declarers.{declarers};
ghost use Rattle.gq_types.specs.Directives.{stands_at_location};
ghost use Rattle.gq_types.specs.Helping.Tables.{lists_in, parts_at, stands_at};

use crate::argument_names::FEW;
use crate::arguments::Arguments;
use crate::built_in::{typename_type, with_built_in};
use crate::declarers::declarers_of;
use crate::definitions::Definitions;
use crate::entry::{Entry, TypeKind};
use crate::fields::place_in;
use crate::joined::joined_numbers;
use crate::locations::has_location;
use crate::parts::{Parts, Place, numbers_at};
use crate::places::{field_at, input_at};
use crate::replacement::Replacement;
use crate::required::is_any_lacking;
use crate::roots::{RootNames, default_name};
use crate::table::Table;
use crate::tables::EntryTables;
use crate::uses::Uses;
use gq_names::{ByName, NameList};
use gq_text::NoMemory;
use gq_tree::{
    DirectiveDefinition, DirectiveLocation, FieldDefinition, InputValueDefinition, OperationKind,
    TypeRef,
};
use std::alloc::Global;
use std::marker::Model;
use std::mem;

/// The definition of a field of an object type or interface (section 3.6), and its arguments.
#[derive(Clone, Copy)]
pub struct DefinedField<'a> {
    pub definition: &'a FieldDefinition,
    pub arguments: Arguments<'a>,
}

/// The definitions and extensions of a type system, those that are built in first. Each name means what is first
/// defined under it.
///
/// Contracts see it as the list of its definitions and extensions (`types_view`). A look-up goes over at most sixteen types or
/// fields, more are in tables, and takes no memory.
pub struct Types {
    definitions: Definitions,
    joined: Vec<Vec<usize>>,
    fields: Vec<Option<Box<Table<Place>>>>,
    parts: Vec<Parts>,
    declarers: ByName<usize>,
    uses: Uses,
    typename_type: TypeRef,
}

impl Drop for Types {
    fn drop(self) {
        let Types {
            definitions: _definitions,
            joined: _joined,
            fields: _fields,
            parts: _parts,
            declarers: _declarers,
            uses: _uses,
            typename_type: _typename_type,
        } = self;
    }
}

impl Model for Types {
    ghost use Rattle.std.specs.Prelude.{List};
    ghost use Rattle.std.specs.Coded.{codes};
    ghost use Rattle.gq_types.specs.contracts.entry.Entry as entry;
    ghost use Rattle.gq_types.specs.declared.entry.Entry.{Entry};
    ghost use Rattle.gq_types.specs.Entries.{entries_view};
    ghost use Rattle.gq_types.specs.Helping.Index.{IsIndex};

    ghost Value = { List Entry };

    ghost coded = { Prim.hlevel (codes, entry.the_row.coded) };

    ghost view = { λ t. t.definitions };

    ghost invariant = { λ t. IsIndex (entries_view t.definitions) t.joined.items t.fields.items t.parts.items t.declarers t.uses t.typename_type };
}

impl Types {
    /// The type system of these definitions and extensions, which stand in the order of their documents and places.
    pub fn of(alloc: Global, entries: Vec<Entry>) -> Result<Types, NoMemory>
        ensures { IfOk result (λ types. types_view types ≡ built_in ++ entries_view entries.items) }
    {
        let all = with_built_in(alloc, entries)?;
        Types::of_entries(alloc, all)
    }

    /// The type system of these, those that are built in among them (`with_built_in`).
    pub fn of_entries(alloc: Global, all: Vec<Entry>) -> Result<Types, NoMemory>
        ensures { IfOk result (λ types. types_view types ≡ entries_view all.items) }
    {
        let definitions = Definitions::of(alloc, all)?;
        let joined = joined_numbers(alloc, &definitions)?;
        let schema = numbers_at(&joined, definitions.schema_number());
        let roots = RootNames::of(alloc, definitions.entries(), schema)?;
        let typename_type = typename_type(alloc)?;
        let tables = EntryTables::of(alloc, definitions.entries(), &joined)?;
        let declarers = declarers_of(alloc, &tables.parts)?;
        let (fields, parts, uses) = tables.split(roots);
        Ok(Types {
            definitions,
            joined,
            fields,
            parts,
            declarers,
            uses,
            typename_type,
        })
    }

    /// Puts these definitions and extensions in the place of those that are not built in, and answers all that were there. They are the same,
    /// in the same order, but for their places and documents, so no name is looked at: it takes the room and the time for the list alone.
    /// Want of memory leaves all as it was.
    pub fn replace_entries(
        &mut self,
        alloc: Global,
        entries: Vec<Entry>,
    ) -> Result<Vec<Entry>, NoMemory>
        requires { ∥ map erase_entry (types_view self.old) ≡ map erase_entry (built_in ++ entries_view entries.items) ∥₁ }
        ensures ok { OnOk result (types_view self.new ≡ built_in ++ entries_view entries.items) }
        ensures was { IfOk result (λ was. entries_view was.items ≡ types_view self.old) }
        ensures err { OnErr result (self.new ≡ self.old) }
    {
        let all = with_built_in(alloc, entries)?;
        Ok(self.definitions.replace(all))
    }

    /// Puts others in the place of its definitions and extensions, among which one type has other fields, and answers those that were there. What is
    /// kept of that type's fields is exchanged with them, and all else that is kept stays: no name is looked at. It takes no memory, and done once more with what it
    /// answers it is undone.
    pub fn exchange(&mut self, other: Replacement) -> Replacement
        requires { ∥ DiffersAt other.number (types_view self.old) (entries_view other.entries.items) ∥₁ }
        ensures now { self.new ≡ other.entries.items }
        ensures was { result.entries.items ≡ self.old }
        ensures number { result.number ≡ other.number }
    {
        let Replacement {
            entries,
            number,
            fields,
            arguments,
        } = other;
        let entries = self.definitions.replace(entries);
        let fields = mem::replace(&mut self.fields[number], fields);
        let arguments = mem::replace(&mut self.uses.arguments[number], arguments);
        Replacement {
            entries,
            number,
            fields,
            arguments,
        }
    }

    /// The definitions and extensions, those that are built in first.
    pub fn entries(&self) -> &[Entry]
        ensures { entries_view result.now ≡ types_view self.now }
    {
        self.definitions.entries()
    }

    /// The number of the first definition of a type of that name.
    pub fn type_number(&self, name: &str) -> Option<usize>
        ensures { result ≡ type_number (types_view self.now) name.now }
    {
        self.definitions.type_number(name)
    }

    /// The kind of the type of that name.
    pub fn kind(&self, name: &str) -> Option<TypeKind>
        ensures { result ≡ kind_named (types_view self.now) name.now }
    {
        self.definitions.kind(name)
    }

    /// The number of the schema definition or, without one, the number of entries (section 3.3).
    pub fn schema_number(&self) -> usize
        ensures { result ≡ schema_number (types_view self.now) }
    {
        self.definitions.schema_number()
    }

    /// The number of what the entry with that number belongs to: an extension to what it extends, which is the first
    /// definition of its name if that is of its kind, and every other entry to itself.
    pub fn owner(&self, number: usize) -> usize
        requires { number < length (types_view self.now) }
        ensures { result ≡ owner_at (types_view self.now) number }
    {
        self.definitions.owner(number)
    }

    /// The numbers of the entries that belong to that number, in order.
    pub fn joined(&self, number: usize) -> &[usize]
        ensures { result.now ≡ joined_numbers (types_view self.now) number }
    {
        numbers_at(&self.joined, number)
    }

    /// The field of that name of an object type or interface (section 3.6).
    pub fn field(&self, type_name: &str, name: &str) -> Option<&FieldDefinition>
        ensures { field_of result ≡ field_named (types_view self.now) type_name.now name.now }
    {
        let number = self.type_number(type_name)?;
        self.field_in(number, name)
    }

    /// The field of that name of the object type or interface with that number, whose extensions are joined (section 3.6).
    pub fn field_in(&self, number: usize, name: &str) -> Option<&FieldDefinition>
        ensures { field_of result ≡ field_in (types_view self.now) number name.now }
    {
        let place = self.field_place(number, name)?;
        field_at(self.entries(), place)
    }

    /// The same with its arguments.
    pub fn defined_field(&self, number: usize, name: &str) -> Option<DefinedField<'_>>
        ensures definition { option_map (λ f. field_definition_view f.definition.now) result ≡ field_in (types_view self.now) number name.now }
        ensures arguments { IfSome result (λ f. map input_view f.arguments.all.now ≡ (field_definition_view f.definition.now).arguments) }
    {
        let place = self.field_place(number, name)?;
        let definition = field_at(self.entries(), place)?;
        let arguments = self.arguments_at(place, &definition.arguments);
        Some(DefinedField {
            definition,
            arguments,
        })
    }

    /// The type of `__typename` (section 4.4), a field of every composite type that no type defines.
    pub fn typename_type(&self) -> &TypeRef
        ensures { type_view result.now ≡ typename_type }
    {
        &self.typename_type
    }

    /// The input field of that name of an input object (section 3.10).
    pub fn input_field(&self, type_name: &str, name: &str) -> Option<&InputValueDefinition>
        ensures { input_of result ≡ input_named (types_view self.now) type_name.now name.now }
    {
        let place = self.parts_named(type_name)?.inputs.get(name)?;
        input_at(self.entries(), place)
    }

    /// Whether an input field of the input object of that name is required and not among the given names. The work is that
    /// for the given names.
    pub fn is_field_missing(&self, type_name: &str, given: &NameList) -> bool
        ensures { result ≡ is_field_missing (types_view self.now) type_name.now given.now }
    {
        match self.required_fields(type_name) {
            Some(required) => is_any_lacking(required, given),
            None => false,
        }
    }

    /// The names of the required input fields of the input object of that name.
    fn required_fields(&self, type_name: &str) -> Option<&NameList>
        ensures { option_map (λ n. n.now) result ≡
            option_map (λ number. required_after [] (map (λ i. i.it) (inputs_of (types_view self.now) number)))
            (type_number (types_view self.now) type_name.now) }
    {
        let number = self.type_number(type_name)?;
        self.uses.required.get(number)
    }

    /// Whether the enum of that name has the value (section 3.9).
    pub fn has_value(&self, type_name: &str, name: &str) -> bool
        ensures { result ≡ has_value (types_view self.now) type_name.now name.now }
    {
        match self.parts_named(type_name) {
            Some(parts) => parts.values.contains(name),
            None => false,
        }
    }

    /// Whether the union of that name has the member (section 3.8).
    pub fn has_member(&self, type_name: &str, name: &str) -> bool
        ensures { result ≡ has_member (types_view self.now) type_name.now name.now }
    {
        match self.parts_named(type_name) {
            Some(parts) => parts.members.contains(name),
            None => false,
        }
    }

    /// Whether the type of that name declares that it implements the interface (sections 3.6 and 3.7).
    pub fn declares(&self, type_name: &str, interface: &str) -> bool
        ensures { result ≡ declares (types_view self.now) type_name.now interface.now }
    {
        match self.type_number(type_name) {
            Some(number) => self.declares_in(number, interface),
            None => false,
        }
    }

    /// Whether the object type or interface with that number declares that it implements the interface (sections 3.6
    /// and 3.7).
    pub fn declares_in(&self, number: usize, interface: &str) -> bool
        ensures { result ≡ declares_in (types_view self.now) number interface.now }
    {
        match self.parts_numbered(number) {
            Some(parts) => parts.interfaces.contains(interface),
            None => false,
        }
    }

    /// The number of the first definition of a directive of that name.
    pub fn directive_number(&self, name: &str) -> Option<usize>
        ensures { result ≡ directive_number (types_view self.now) name.now }
    {
        self.definitions.directive_number(name)
    }

    /// The directive of that name (section 3.13).
    pub fn directive(&self, name: &str) -> Option<&DirectiveDefinition>
        ensures { directive_of result ≡ directive_named (types_view self.now) name.now }
    {
        self.definitions.directive(name)
    }

    /// The arguments of the directive of that name.
    pub fn directive_arguments(&self, name: &str) -> Option<Arguments<'_>>
        ensures { option_map (λ a. map input_view a.all.now) result ≡ directive_arguments (types_view self.now) name.now }
    {
        let entry = self.directive_number(name)?;
        let definition = self.directive(name)?;
        Some(self.arguments_at(Place { entry, index: 0 }, &definition.arguments))
    }

    /// Whether the directive of that name is known and may stand at that location (section 3.13).
    pub fn stands_at(&self, directive: &str, location: DirectiveLocation) -> bool
        ensures { result ≡ stands_at_location (types_view self.now) directive.now location }
    {
        match self.definitions.directive_number(directive) {
            Some(number) => has_location(&self.uses.locations[number], location),
            None => false,
        }
    }

    /// The root operation type of that kind (section 3.3.1), which is an object type.
    pub fn root(&self, kind: OperationKind) -> Option<&str>
        ensures { text_of result ≡ root_of (types_view self.now) kind }
    {
        let name = match self.default_root(kind) {
            Some(name) => name,
            None => self.entry_for(kind)?,
        };
        if self.is_object(name) {
            Some(name)
        } else {
            None
        }
    }

    /// The root operation type that stands without a schema definition, by its name (section 3.3.1).
    pub fn default_root(&self, kind: OperationKind) -> Option<&'static str>
        ensures { text_of result ≡ default_root (types_view self.now) kind }
    {
        let name = default_name(kind);
        if self.schema_number() == self.entries().len() && self.is_object(name) {
            Some(name)
        } else {
            None
        }
    }

    /// What the first entry of that kind of operation names, in the schema definition and its extensions.
    fn entry_for(&self, kind: OperationKind) -> Option<&str>
        ensures { text_of result ≡ entry_for (types_view self.now) kind }
    {
        self.uses.roots.named(kind)
    }

    /// Whether the name is that of an object type.
    fn is_object(&self, name: &str) -> bool
        ensures { result ≡ is_object (types_view self.now) name.now }
    {
        match self.kind(name) {
            Some(kind) => TypeKind::Object.is(kind),
            None => false,
        }
    }

    /// The numbers of the entries of the types that declare the interface, in order.
    pub fn declarers(&self, interface: &str) -> &[usize]
        ensures { result.now ≡ declarers (types_view self.now) interface.now }
    {
        self.declarers.get(interface)
    }

    /// The place of the field of that name of the object type or interface with that number.
    fn field_place(&self, number: usize, name: &str) -> Option<Place>
        ensures { option_and_then (stands_at fields_in_body (types_view self.now)) result ≡ field_in (types_view self.now) number name.now }
    {
        match self.fields.get(number)? {
            Some(table) => table.get(name),
            None => place_in(self.entries(), number, name),
        }
    }

    /// The arguments that stand at that place.
    fn arguments_at<'a>(&'a self, place: Place, all: &'a [InputValueDefinition]) -> Arguments<'a>
        requires { arguments_at (types_view self.now) place ≡ Some (map input_view all.now) }
        ensures { map input_view result.all.now ≡ map input_view all.now }
    {
        if all.len() <= FEW {
            return Arguments::over(all);
        }
        let Some(names) = self.uses.arguments.get(place.entry) else {
            return Arguments::over(all);
        };
        match names.get(place.index) {
            Some(names) => Arguments::by_names(all, names),
            None => Arguments::over(all),
        }
    }

    /// The parts of the type of that name.
    fn parts_named(&self, type_name: &str) -> Option<&Parts>
        ensures { option_map (λ p. lists_in p.now) result ≡
            option_map (λ number. parts_at (types_view self.now) (joined_numbers (types_view self.now) number))
            (type_number (types_view self.now) type_name.now) }
    {
        let number = self.type_number(type_name)?;
        self.parts.get(number)
    }

    /// The parts of the type with that number.
    fn parts_numbered(&self, number: usize) -> Option<&Parts>
        ensures { option_map (λ p. lists_in p.now) result ≡
            option_map (λ e. parts_at (types_view self.now) (joined_numbers (types_view self.now) number))
            (slice_get (types_view self.now) number) }
    {
        self.parts.get(number)
    }
}
