//! Schemas: the type systems of projects with which nothing is wrong.
ghost use Rattle.std.specs.Prelude.{◌≡◌, ◌↔◌, ◌≢◌, IfOk, IfErr, IsTrue, Contains};
ghost use Rattle.std.specs.List.{AllPairs};
ghost use Rattle.gq_tree.specs.Views.{type_view};
ghost use Rattle.gq_types.specs.Entries.{Text};
ghost use Rattle.gq_types.specs.Look.{types_view, text_of, field_of};
ghost use Rattle.gq_types.specs.LookUps.{texts_of};
ghost use Rattle.gq_types.specs.Names.{field_named};
ghost use Rattle.gq_types.specs.Possible.{IsPossible, IsSubtype};
ghost use Rattle.gq_types.specs.Roots.{root_of};
ghost use Rattle.gq_schema.specs.SchemaOf.{IsTypeSystemOf, HasNoFault};

use gq_document::type_system_entries;
use gq_fault::{Fault, Found, found_at};
use gq_parse::read;
use gq_project::Project;
use gq_text::NoMemory;
use gq_tree::{FieldDefinition, OperationKind, TypeRef};
use gq_type_system::schema_faults;
use gq_types::Types;
use std::alloc::Global;
use std::marker::Model;
use thiserror::Error;

/// The type system of a project, with which nothing is wrong (GraphQL, October 2021, section 3).
///
/// Contracts see it as the list of its definitions and extensions, those that are built in first (`types_view`).
#[derive(Drop)]
pub struct Schema {
    types: Types,
}

impl Model for Schema {
    ghost use Rattle.std.specs.Prelude.{List};
    ghost use Rattle.std.specs.Coded.{codes};
    ghost use Rattle.gq_types.specs.contracts.entry.Entry as entry;
    ghost use Rattle.gq_types.specs.declared.entry.Entry.{Entry};
    ghost use Rattle.gq_types.specs.Look.{types_view};
    ghost use Rattle.gq_schema.specs.SchemaOf.{HasNoFault};

    ghost Value = { List Entry };

    ghost coded = { Prim.hlevel (codes, entry.the_row.coded) };

    ghost view = { λ s. s.types };

    ghost invariant = { λ s. HasNoFault (types_view s.types) };
}

/// Why a project has no schema.
#[derive(Debug, Drop, Error)]
pub enum SchemaFault {
    /// What is wrong, in the order of keys, places and codes, each place and code once. Of a project without documents
    /// nothing is told, since there is no place.
    #[error("the type system is not valid")]
    Faults(Vec<Found>),
    /// A growth was refused.
    #[error("no memory")]
    NoMemory,
}

impl From<NoMemory> for SchemaFault {
    ghost use Rattle.gq_schema.specs.declared.schema.SchemaFault.TheVariants.{NoMemory};

    ghost from_gives = { λ _ fault. fault ≡ NoMemory };

    fn from(_error: NoMemory) -> Self {
        SchemaFault::NoMemory
    }
}

impl Schema {
    ghost use Rattle.gq_schema.specs.SchemaResults.{IsFaultOf};

    /// The schema of all type system definitions and extensions of the documents that parse, or all that is wrong with
    /// them.
    pub fn build(alloc: Global, project: &Project) -> Result<Schema, SchemaFault>
        ensures schema { IfOk result (λ schema. IsTypeSystemOf project.now (types_view schema)) }
        ensures valid { IfOk result (λ schema. HasNoFault (types_view schema)) }
        ensures faults { IfErr result (λ fault. IsFaultOf project.now fault) }
    {
        let readings = read(alloc, project.documents())?;
        let entries = type_system_entries(alloc, &readings)?;
        let types = Types::of(alloc, entries)?;
        let faults = schema_faults(alloc, &types)?;
        if faults.is_empty() {
            return Ok(Schema { types });
        }
        Err(SchemaFault::Faults(found_at(alloc, &faults, project.documents())?))
    }

    /// The types, with all that is looked up in them.
    pub fn types(&self) -> &Types
        ensures same { types_view result.now ≡ types_view self.now }
        ensures valid { HasNoFault (types_view self.now) }
    {
        &self.types
    }

    /// The field of that name of an object type or interface (section 3.6). It takes no memory.
    pub fn field(&self, type_name: &str, name: &str) -> Option<&FieldDefinition>
        ensures { field_of result ≡ field_named (types_view self.now) type_name.now name.now }
    {
        self.types.field(type_name, name)
    }

    /// The names of the objects that a value of that type may be, each once (section 5.5.2.3).
    pub fn possible<'t>(&'t self, alloc: Global, type_name: &str) -> Result<Vec<&'t str>, NoMemory>
        ensures all { IfOk result (λ objects. (object : Text) → Contains (texts_of objects.items) object ↔ IsPossible (types_view self.now) type_name.now object) }
        ensures once { IfOk result (λ objects. AllPairs (λ a b. a ≢ b) (texts_of objects.items)) }
    {
        self.types.possible(alloc, type_name)
    }

    /// Whether the first type is the second one or a subtype of it (section 3.6). It takes no memory.
    pub fn is_subtype(&self, sub: &TypeRef, super_type: &TypeRef) -> bool
        ensures { IsTrue result ↔ IsSubtype (types_view self.now) (type_view sub.now) (type_view super_type.now) }
    {
        self.types.is_subtype(sub, super_type)
    }

    /// Whether a type condition applies to an object: whether the object is possible for the type (section 5.5.2.3). It
    /// takes no memory.
    pub fn applies(&self, condition: &str, object: &str) -> bool
        ensures { IsTrue result ↔ IsPossible (types_view self.now) condition.now object.now }
    {
        self.types.applies(condition, object)
    }

    /// The name of the root operation type of that kind (section 3.3.1), which is an object type. It takes no memory.
    pub fn root(&self, kind: OperationKind) -> Option<&str>
        ensures { text_of result ≡ root_of (types_view self.now) kind }
    {
        self.types.root(kind)
    }
}
