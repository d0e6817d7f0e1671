//! What is learned of a project by reading it.
ghost use Rattle.std.specs.Prelude.{◌≡◌, ◌++◌, false, [], ℕ, IfOk};
ghost use Rattle.gq_tree.specs.Readings.{in_document, parsed_view, readings_view};
ghost use Rattle.gq_types.specs.BuiltIn.{built_in};
ghost use Rattle.gq_types.specs.Look.{types_view};
ghost use Rattle.gq_document.specs.Definitions.{entry_in, entries_of};
ghost use Rattle.gq_known.specs.Known.{IsKnown, IsLearned};

use crate::known::Known;
use gq_document::{one_defines_types, type_system_entries};
use gq_parse::read_shared;
use gq_project::Project;
use gq_text::NoMemory;
use gq_tree::Parsed;
use gq_type_system::schema_faults;
use gq_types::Types;
use std::alloc::Global;
use std::sync::Arc;

/// What a project's documents read as, and their type system.
#[derive(Drop)]
pub struct Learned {
    pub readings: Vec<Arc<Parsed>>,
    pub types: Types,
    pub has_schema: bool,
}

impl Learned {
    /// What is known of the project once its documents are read.
    pub fn of(alloc: Global, project: &Project) -> Result<Learned, NoMemory>
        ensures { IfOk result (IsLearned project.now) }
    {
        let documents = project.documents();
        let readings = read_shared(alloc, documents)?;
        let types = type_system(alloc, &readings)?;
        let has_schema = schema_faults(alloc, &types)?.is_empty();
        Ok(Learned {
            readings,
            types,
            has_schema,
        })
    }

    /// The same, lent.
    pub fn known<'a>(&'a self, project: &'a Project) -> Known<'a>
        ensures project { result.project.now ≡ project.now }
        ensures readings { result.readings.now ≡ self.now.readings.items }
        ensures known { IsLearned project.now self.now → IsKnown result }
    {
        Known {
            project,
            readings: &self.readings,
            types: &self.types,
            has_schema: self.has_schema,
        }
    }
}

/// Whether a document has a definition or an extension of the type system.
pub fn defines_types(reading: &Parsed) -> bool
    ensures { result ≡ false → (file : ℕ) → in_document entry_in file (parsed_view reading.now) ≡ [] }
{
    match reading {
        Parsed::Tree(document) => one_defines_types(&document.definitions),
        Parsed::Syntax { .. } => false,
        Parsed::Limit { .. } => false,
    }
}

/// The type system of documents that are read so. It shares its definitions with their trees: no text is read.
pub fn type_system(alloc: Global, readings: &[Arc<Parsed>]) -> Result<Types, NoMemory>
    ensures { IfOk result (λ types. types_view types ≡ built_in ++ entries_of (readings_view readings.now)) }
{
    let entries = type_system_entries(alloc, readings)?;
    let types = Types::of(alloc, entries)?;
    Ok(types)
}
