//! What is kept of a project while its files change, beside what is found anew.
use crate::tests::documents::file;
use gq_fault::Code;
use gq_index::Index;
use gq_kept::Kept;
use gq_parse::Piece;
use gq_project::{Doc, Project};
use gq_rules::{Report, Valid, validate};
use gq_text::NoMemory;
use std::alloc::Global;
use std::sync::Arc;
use std::test::Fail;

/// Whether these are all faults of a report: unknown fragments in the document of that key, from these places on.
fn are_unknown_fragments(report: &Report, key: &str, places: &[usize]) -> bool {
    if report.found.len() != places.len() {
        return false;
    }
    for (found, place) in report.found.iter().zip(places) {
        if found.code != Code::UnknownFragment
            || found.key.as_str() != key
            || found.span.start != *place
        {
            return false;
        }
    }
    true
}

/// Whether a fragment that goes, comes back and is dropped makes its spreads unknown, and known again.
fn is_unknown_while_it_is_gone(alloc: Global, kept: &mut Kept) -> Result<bool, NoMemory> {
    kept.replace_file(alloc, file(alloc, "s", "type Query{x:Int}")?, None)?;
    kept.replace_file(alloc, file(alloc, "q", "{...F ...F}")?, None)?;
    kept.replace_file(alloc, file(alloc, "f", "fragment F on Query{x}")?, None)?;
    let first = kept.report(alloc)?.found.is_empty();
    kept.replace_file(alloc, file(alloc, "f", "")?, None)?;
    let gone = are_unknown_fragments(&kept.report(alloc)?, "q", &[4, 9]);
    kept.drop_file(alloc, "f")?;
    let dropped = are_unknown_fragments(&kept.report(alloc)?, "q", &[4, 9]);
    kept.replace_file(alloc, file(alloc, "f", "fragment F on Query{x}")?, None)?;
    let last = kept.report(alloc)?.found.is_empty();
    Ok(first && gone && dropped && last && kept.valid().is_some())
}

#[test]
fn a_fragment_goes_and_comes_back(rt: HostRuntime) -> Result<(), Fail> {
    let alloc = rt.alloc();
    let mut kept = Kept::of(alloc, &Project::new(alloc))?;
    assert!(rt; is_unknown_while_it_is_gone(alloc, &mut kept)?);
    Ok(())
}

/// A piece of a document of that key and text.
fn piece(alloc: Global, key: &str, text: &str) -> Result<Arc<Piece>, NoMemory> {
    Ok(Arc::new(alloc, Piece::of(alloc, &file(alloc, key, text)?)?)?)
}

/// Whether a piece of another text or of another key is not used, and what is told is that of the document's text.
fn takes_its_own_piece_alone(alloc: Global, kept: &mut Kept) -> Result<bool, NoMemory> {
    kept.replace_file(alloc, file(alloc, "s", "type Query{x:Int}")?, None)?;
    let right = piece(alloc, "q", "{x}")?;
    kept.replace_file(alloc, file(alloc, "q", "{...F ...F}")?, Some(right))?;
    let of_another_text = are_unknown_fragments(&kept.report(alloc)?, "q", &[4, 9]);
    let wrong = piece(alloc, "r", "{...F}")?;
    kept.replace_file(alloc, file(alloc, "q", "{x}")?, Some(wrong))?;
    let of_another_key = kept.report(alloc)?.found.is_empty();
    let own = piece(alloc, "q", "{...F}")?;
    kept.replace_file(alloc, file(alloc, "q", "{...F}")?, Some(own))?;
    let its_own = are_unknown_fragments(&kept.report(alloc)?, "q", &[4]);
    Ok(of_another_text && of_another_key && its_own)
}

#[test]
fn a_piece_of_another_text_is_not_used(rt: HostRuntime) -> Result<(), Fail> {
    let alloc = rt.alloc();
    let mut kept = Kept::of(alloc, &Project::new(alloc))?;
    assert!(rt; takes_its_own_piece_alone(alloc, &mut kept)?);
    Ok(())
}

const KEYS: [&str; 4] = ["a", "b", "c", "d"];

/// Schemas and operations, right and wrong, with definitions of both sorts, without a tree, and empty.
const TEXTS: [&str; 17] = [
    "type Query{x:Int f(a:Int):Int q:Query}",
    "{...F ...F}",
    "fragment F on Query{x}",
    "query A($a:Int){f(a:$a)...G}",
    "type Query{x:Int f(a:Int!):Int q:Query}",
    "fragment G on Query{f(a:$b)}",
    "fragment F on Query{y ...F}",
    "",
    "query A{x}{x}",
    "extend type Query{y:Int}",
    "{x x:f q{z}}",
    "{",
    "type Query{y:Int}",
    "extend type Query{z:Int} {z}",
    "query B($a:Int $a:Q){x...G...F @skip(if:1)}",
    "type T implements Query{x:Int}",
    "mutation{x} subscription{x}",
];

/// The key of the document that the change of that number is of.
fn key_of(number: usize) -> &'static str {
    KEYS[(number % 4 + number / 5 % 4) % 4]
}

/// The document that comes, or comes in place of another, in the change of that number.
fn document_of(alloc: Global, number: usize) -> Result<Doc, NoMemory> {
    let text = TEXTS[(number % 17 * 7 + number / 4 % 17) % 17];
    file(alloc, key_of(number), text)
}

/// Makes the change of that number: a document goes in each ninth, else one comes, or comes in place of another.
fn change(alloc: Global, kept: &mut Kept, number: usize) -> Result<(), NoMemory> {
    if number % 9 == 8 {
        return kept.drop_file(alloc, key_of(number));
    }
    kept.replace_file(alloc, document_of(alloc, number)?, None)
}

/// The same in a project and in its index.
fn change_both(
    alloc: Global,
    project: &mut Project,
    index: &mut Index,
    number: usize,
) -> Result<(), NoMemory> {
    if number % 9 == 8 {
        let _ = project.take(key_of(number));
        return index.drop_file(alloc, key_of(number));
    }
    let document = document_of(alloc, number)?;
    index.replace_file(alloc, &document)?;
    project.put(document)
}

/// Whether two indexes tell the same of fragments.
fn are_fragments_alike(index: &Index, anew: &Index) -> bool {
    for name in ["F", "G", "H"] {
        if index.definitions(name) != anew.definitions(name)
            || index.spreads(name) != anew.spreads(name)
            || index.occurrences(name) != anew.occurrences(name)
        {
            return false;
        }
    }
    index.places() == anew.places()
}

/// Whether two indexes tell the same of variables.
fn are_variables_alike(index: &Index, anew: &Index) -> bool {
    for number in 0..anew.places().len() {
        if index.variable_uses(number, "a") != anew.variable_uses(number, "a")
            || index.variable_definitions(number, "a") != anew.variable_definitions(number, "a")
        {
            return false;
        }
    }
    true
}

/// Whether what is kept tells what is found anew.
fn is_as_anew(alloc: Global, kept: &mut Kept) -> Result<bool, NoMemory> {
    let report = kept.report(alloc)?;
    let project = kept.project().copied(alloc)?;
    let anew = validate(alloc, &project)?;
    let is_valid = Valid::new(alloc, project).is_ok();
    Ok(report.found == anew.found && kept.valid().is_some() == is_valid)
}

/// Whether what is kept tells after each of a thousand changes what is found anew.
fn is_as_anew_after_each(alloc: Global, kept: &mut Kept) -> Result<bool, NoMemory> {
    for number in 0..1000 {
        change(alloc, kept, number)?;
        if !is_as_anew(alloc, kept)? {
            return Ok(false);
        }
    }
    Ok(true)
}

#[test]
fn a_thousand_changes_tell_what_is_found_anew(rt: HostRuntime) -> Result<(), Fail> {
    let alloc = rt.alloc();
    let mut kept = Kept::of(alloc, &Project::new(alloc))?;
    assert!(rt; is_as_anew_after_each(alloc, &mut kept)?);
    Ok(())
}

/// Whether the index tells what one tells that is made anew.
fn is_as_made_anew(alloc: Global, project: &Project, index: &Index) -> Result<bool, NoMemory> {
    let anew = Index::of(alloc, project)?;
    Ok(are_fragments_alike(index, &anew) && are_variables_alike(index, &anew))
}

#[test]
fn an_index_is_mended_to_what_is_made_anew(rt: HostRuntime) -> Result<(), Fail> {
    let alloc = rt.alloc();
    let mut project = Project::new(alloc);
    let mut index = Index::of(alloc, &project)?;
    for number in 0..1000 {
        change_both(alloc, &mut project, &mut index, number)?;
        assert!(rt; is_as_made_anew(alloc, &project, &index)?);
    }
    Ok(())
}

/// Operations and fragments that spread each other from file to file: with cycles, unknown and unused fragments, variables that
/// are not defined, not used or not allowed, fields that do not merge, names that stand twice, and one text without a tree.
const OPERATIONS: [&str; 16] = [
    "{...F}",
    "query A($a:Int){f(a:$a)...F}",
    "query B($a:Int){x...G}",
    "fragment F on Query{x}",
    "fragment F on Query{f(a:$a)...G}",
    "fragment G on Query{x:f}",
    "fragment G on Query{q{...H}}",
    "fragment H on Query{f(a:$a)}",
    "fragment H on Query{...F}",
    "query C($a:String){x ...G}",
    "query D{...H q{...G}}",
    "{",
    "",
    "query A{x} fragment F on Query{x:q{x}}",
    "query E($a:Int){...F...G...H}",
    "fragment K on T{y}",
];

/// Replaces a file of operations by the text of that number, seldom drops one.
fn change_operations(alloc: Global, kept: &mut Kept, number: usize) -> Result<(), NoMemory> {
    let key = KEYS[(number % 4 * 3 + number / 7) % 4];
    if number % 41 == 40 {
        return kept.drop_file(alloc, key);
    }
    let text = OPERATIONS[(number % 16 * 5 + number / 16 * 3) % 16];
    kept.replace_file(alloc, file(alloc, key, text)?, None)
}

/// The same of a thousand changes of operations over one schema.
fn is_as_anew_over_a_schema(alloc: Global, kept: &mut Kept) -> Result<bool, NoMemory> {
    let schema = "type Query{x:Int f(a:Int):Int q:Query} type T{y:Int}";
    kept.replace_file(alloc, file(alloc, "s", schema)?, None)?;
    for number in 0..1000 {
        change_operations(alloc, kept, number)?;
        if !is_as_anew(alloc, kept)? {
            return Ok(false);
        }
    }
    Ok(true)
}

#[test]
fn a_thousand_changes_of_operations_tell_what_is_found_anew(rt: HostRuntime) -> Result<(), Fail> {
    let alloc = rt.alloc();
    let mut kept = Kept::of(alloc, &Project::new(alloc))?;
    assert!(rt; is_as_anew_over_a_schema(alloc, &mut kept)?);
    Ok(())
}

/// Schemas that differ in fields alone, in one of these each or in several, in their order, in descriptions, and in more than fields.
const SCHEMAS: [&str; 13] = [
    "type Query{x:Int f(a:Int):Int q:Query} type T{y:Int}",
    "type Query{x:Int f(a:Int):Int q:Query z:Int} type T{y:Int}",
    "type Query{x:Int f(a:Int!):Int q:Query} type T{y:Int}",
    "type Query{x:Int q:Query} type T{y:Int}",
    "type Query{x:Query f(a:Int):Int q:Query} type T{y:Int}",
    "type Query{x:Int f(a:String):Int q:T} type T{y:Int}",
    "\"t\" type Query{x:Int \"d\" f(a:Int):Int q:Query} type T{y:Int z:Int}",
    "type Query{f(a:Int):Int x:Int q:Query} type T{y:Int}",
    "type Query{x:Int f(a:Int=1):Int! q:Query} type T{y:Query}",
    "type Query{x:[Int] f(a:[Int]):Int q:Query} type T{y:Int @deprecated}",
    "type Query{x:Int f(a:Int):Int q:Query} interface T{y:Int}",
    "type Query{x:Int x:T f(a:Int):Int q:Query} type T{y:Int}",
    "schema{query:Query} type Query{x:Int f(a:Int):Int q:Query} type T{y:Int}",
];

/// Replaces the schema by the text of that number.
fn change_schema(alloc: Global, kept: &mut Kept, number: usize) -> Result<(), NoMemory> {
    let schema = SCHEMAS[(number % 13 * 5 + number / 13 % 13 * 7) % 13];
    kept.replace_file(alloc, file(alloc, "s", schema)?, None)
}

/// The same where the schema changes once for each change of operations.
fn is_as_anew_over_schemas(alloc: Global, kept: &mut Kept) -> Result<bool, NoMemory> {
    for number in 0..500 {
        change_schema(alloc, kept, number)?;
        if !is_as_anew(alloc, kept)? {
            return Ok(false);
        }
        change_operations(alloc, kept, number)?;
        if !is_as_anew(alloc, kept)? {
            return Ok(false);
        }
    }
    Ok(true)
}

#[test]
fn a_thousand_changes_of_fields_and_operations_tell_what_is_found_anew(
    rt: HostRuntime,
) -> Result<(), Fail> {
    let alloc = rt.alloc();
    let mut kept = Kept::of(alloc, &Project::new(alloc))?;
    assert!(rt; is_as_anew_over_schemas(alloc, &mut kept)?);
    Ok(())
}
