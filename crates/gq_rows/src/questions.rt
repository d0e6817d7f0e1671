//! What a file of rows asks of each of them.
use crate::arguments::{tell_fragment_names, tell_same_arguments, tell_same_values};
use crate::checks::{tell_check, tell_validity};
use crate::documents::{
    tell_definitions, tell_readings, tell_readings_by_threads, tell_selections,
};
use crate::faults::tell_variables;
use crate::graphs::tell_graph;
use crate::indexes::tell_index;
use crate::keys::tell_key;
use crate::literals::tell_literals;
use crate::messages::tell_message;
use crate::names::{tell_items, tell_names, tell_repeated, tell_spelling};
use crate::no_answer::NoAnswer;
use crate::projects::tell_steps;
use crate::row::Row;
use crate::schemas::{tell_answer, tell_schema};
use crate::spreads::tell_spreads;
use crate::syntax::{tell_count, tell_string, tell_tokens, tell_tree};
use crate::telling::Telling;
use crate::texts::{tell_changed, tell_place};
use crate::types::tell_types;
use std::alloc::Global;
use std::thread::Threads;

/// What is asked of a row.
#[derive(Clone, Copy)]
pub enum Question {
    Check,
    Validity,
    Variables,
    Index,
    Definitions,
    Readings,
    ReadingsByThreads,
    Selections,
    Schema,
    SchemaAnswer,
    Literals,
    Spreads,
    Types,
    Tokens,
    Strings,
    DefinitionCount,
    Tree,
    Place,
    Changes,
    SameArguments,
    SameValues,
    FragmentNames,
    Graph,
    Message,
    Key,
    Names,
    RepeatedNames,
    ItemsByName,
    NameSpelling,
    Project,
}

impl Question {
    /// What the file of that name asks, such as `check.rows` or `check.names.rows`.
    pub fn of_file(name: &str) -> Option<Question> {
        let (word, _) = name.split_once('.')?;
        Some(match word {
            "check" => Question::Check,
            "validity" => Question::Validity,
            "variables" => Question::Variables,
            "index" => Question::Index,
            "definitions" => Question::Definitions,
            "readings" => Question::Readings,
            "readings_by_threads" => Question::ReadingsByThreads,
            "selections" => Question::Selections,
            "schema" => Question::Schema,
            "schema_answers" => Question::SchemaAnswer,
            "literals" => Question::Literals,
            "spread_answers" => Question::Spreads,
            "types" => Question::Types,
            "tokens" => Question::Tokens,
            "strings" => Question::Strings,
            "definition_counts" => Question::DefinitionCount,
            "trees" => Question::Tree,
            "positions" => Question::Place,
            "changes" => Question::Changes,
            "same_arguments" => Question::SameArguments,
            "same_values" => Question::SameValues,
            "fragment_names" => Question::FragmentNames,
            "graphs" => Question::Graph,
            "messages" => Question::Message,
            "keys" => Question::Key,
            "names" => Question::Names,
            "repeated_names" => Question::RepeatedNames,
            "items_by_name" => Question::ItemsByName,
            "name_spellings" => Question::NameSpelling,
            "projects" => Question::Project,
            _ => return None,
        })
    }

    /// Tells the answer to a row.
    pub fn answer<R: Threads + Sync>(
        self,
        threads: &R,
        alloc: Global,
        row: &Row<'_>,
        telling: &mut Telling,
    ) -> Result<(), NoAnswer> {
        match self {
            Question::Check => tell_check(threads, alloc, row, telling),
            Question::Validity => tell_validity(alloc, row, telling),
            Question::Variables => tell_variables(alloc, row, telling),
            Question::Index => tell_index(alloc, row, telling),
            Question::Definitions => tell_definitions(alloc, row, telling),
            Question::Readings => tell_readings(alloc, row, telling),
            Question::ReadingsByThreads => {
                tell_readings_by_threads(threads, alloc, row, telling)
            }
            Question::Selections => tell_selections(alloc, row, telling),
            Question::Schema => tell_schema(alloc, row, telling),
            Question::SchemaAnswer => tell_answer(alloc, row, telling),
            Question::Literals => tell_literals(alloc, row, telling),
            Question::Spreads => tell_spreads(alloc, row, telling),
            Question::Types => tell_types(alloc, row, telling),
            Question::Tokens => tell_tokens(alloc, row, telling),
            Question::Strings => tell_string(alloc, row, telling),
            Question::DefinitionCount => tell_count(alloc, row, telling),
            Question::Tree => tell_tree(alloc, row, telling),
            Question::Place => tell_place(alloc, row, telling),
            Question::Changes => tell_changed(alloc, row, telling),
            Question::SameArguments => tell_same_arguments(alloc, row, telling),
            Question::SameValues => tell_same_values(alloc, row, telling),
            Question::FragmentNames => tell_fragment_names(alloc, row, telling),
            Question::Graph => tell_graph(alloc, row, telling),
            Question::Message => tell_message(alloc, row, telling),
            Question::Key => tell_key(alloc, row, telling),
            Question::Names => tell_names(alloc, row, telling),
            Question::RepeatedNames => tell_repeated(alloc, row, telling),
            Question::ItemsByName => tell_items(alloc, row, telling),
            Question::NameSpelling => tell_spelling(alloc, row, telling),
            Question::Project => tell_steps(alloc, row, telling),
        }
    }
}
