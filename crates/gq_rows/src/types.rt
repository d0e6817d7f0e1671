//! What is looked up in a type system.
use crate::literals::types_of;
use crate::no_answer::NoAnswer;
use crate::row::Row;
use crate::telling::Telling;
use gq_names::NameList;
use gq_text::{SmallText, Span};
use gq_tree::{
    DirectiveLocation, FieldDefinition, InputValueDefinition, Name, OperationKind, TypeRef,
};
use gq_types::{Arguments, TypeKind, Types};
use std::alloc::Global;

/// The first word of a text, and the words behind it.
fn cut(text: &str) -> (&str, &str) {
    text.split_once(' ').unwrap_or((text, ""))
}

fn field_name(found: Option<&FieldDefinition>) -> &str {
    match found {
        Some(field) => field.name.text.as_str(),
        None => "none",
    }
}

fn input_name(found: Option<&InputValueDefinition>) -> &str {
    match found {
        Some(input) => input.name.text.as_str(),
        None => "none",
    }
}

/// The root of that kind, or that which stands there by default.
fn root<'t>(types: &'t Types, words: &str) -> Option<&'t str> {
    match words {
        "query" => types.root(OperationKind::Query),
        "mutation" => types.root(OperationKind::Mutation),
        "subscription" => types.root(OperationKind::Subscription),
        "query by default" => types.default_root(OperationKind::Query),
        "subscription by default" => types.default_root(OperationKind::Subscription),
        _ => Some("no kind of root"),
    }
}

/// Whether a directive may stand at a location.
fn stands_at(types: &Types, name: &str, location: &str) -> bool {
    match location {
        "FIELD" => types.stands_at(name, DirectiveLocation::Field),
        "QUERY" => types.stands_at(name, DirectiveLocation::Query),
        "ENUM" => types.stands_at(name, DirectiveLocation::Enum),
        _ => types.stands_at(name, DirectiveLocation::InputFieldDefinition),
    }
}

/// Tells of two names, asked as `field Hero age`, and says whether it is asked so.
fn tell_names(types: &Types, function: &str, words: &str, telling: &mut Telling) -> bool {
    let (word, name) = cut(words);
    match function {
        "field" => telling.put(field_name(types.field(word, name))),
        "input_field" => telling.put(input_name(types.input_field(word, name))),
        "has_value" => telling.put_yes_or_no(types.has_value(word, name)),
        "has_member" => telling.put_yes_or_no(types.has_member(word, name)),
        "declares" => telling.put_yes_or_no(types.declares(word, name)),
        "applies" => telling.put_yes_or_no(types.applies(word, name)),
        "is_interface" => telling.put_yes_or_no(types.has_kind(word, TypeKind::Interface)),
        "is_object" => telling.put_yes_or_no(types.has_kind(word, TypeKind::Object)),
        "stands_at" => telling.put_yes_or_no(stands_at(types, word, name)),
        "root" => telling.put(root(types, words).unwrap_or("none")),
        _ => return false,
    }
    true
}

/// Tells of an entry, asked as `at 10 field age`.
fn tell_at(types: &Types, asked: &str, telling: &mut Telling) -> Result<(), NoAnswer> {
    let (number, words) = cut(asked);
    let number = number.parse::<usize>()?;
    let (function, name) = cut(words);
    match function {
        "joined" => telling.put_debug(&types.joined(number)),
        "field" => telling.put(field_name(types.field_in(number, name))),
        "declares" => telling.put_yes_or_no(types.declares_in(number, name)),
        "interfaces" => telling.put_number(types.interfaces_at(number).len()),
        "fields" => telling.put_number(types.fields_at(number).len()),
        "members" => telling.put_number(types.members_at(number).len()),
        _ => return Err(NoAnswer),
    }
    Ok(())
}

/// Tells for each entry the number of what it belongs to.
fn tell_owners(alloc: Global, types: &Types, telling: &mut Telling) -> Result<(), NoAnswer> {
    let mut owners = Vec::new(alloc);
    for number in 0..types.entries().len() {
        owners.push(types.owner(number))?;
    }
    telling.put_debug(&owners);
    Ok(())
}

/// Tells the name of a directive, how many arguments it has, and whether it is repeatable.
fn tell_directive(types: &Types, word: &str, telling: &mut Telling) {
    match types.directive(word) {
        Some(one) => {
            telling.put(one.name.text.as_str());
            telling.put(" ");
            telling.put_number(one.arguments.len());
            telling.put(if one.repeatable { " repeatable" } else { "" });
        }
        None => telling.put("none"),
    }
}

/// Tells of lists of entries and objects, and of the schema.
fn tell_lists(
    alloc: Global,
    types: &Types,
    asked: &str,
    telling: &mut Telling,
) -> Result<(), NoAnswer> {
    let (function, words) = cut(asked);
    match function {
        "entries" => telling.put_number(types.entries().len()),
        "owners" => tell_owners(alloc, types, telling)?,
        "schema_number" => telling.put_number(types.schema_number()),
        "type_number" => match types.type_number(words) {
            Some(number) => telling.put_number(number),
            None => telling.put("none"),
        },
        "kind" => match types.kind(words) {
            Some(kind) => telling.put_debug(&kind),
            None => telling.put("none"),
        },
        "implementers" => telling.put_debug(&types.implementers(alloc, words)?),
        "declarers" => telling.put_debug(&types.declarers(words)),
        "possible" => telling.put_words(&types.possible(alloc, words)?),
        "directive" => tell_directive(types, words, telling),
        "at" => tell_at(types, words, telling)?,
        _ => return Err(NoAnswer),
    }
    Ok(())
}

/// The arguments of a field of the type `Query`, or of a directive asked as `@few`.
fn arguments_at<'t>(types: &'t Types, word: &str) -> Option<Arguments<'t>> {
    match word.strip_prefix("@") {
        Some(name) => types.directive_arguments(name),
        None => {
            let number = types.type_number("Query")?;
            Some(types.defined_field(number, word)?.arguments)
        }
    }
}

fn names(alloc: Global, words: &str) -> Result<NameList, NoAnswer> {
    let mut names = NameList::new(alloc);
    for word in words.split_whitespace() {
        let _ = names.push(word)?;
    }
    Ok(names)
}

/// Tells of the arguments of a field or directive, asked as `arguments few`, `argument few first`, or as
/// `is_any_missing few second third` where these are given.
fn tell_arguments(
    alloc: Global,
    types: &Types,
    asked: &str,
    telling: &mut Telling,
) -> Result<(), NoAnswer> {
    let (function, words) = cut(asked);
    let (word, words) = cut(words);
    match (function, arguments_at(types, word)) {
        (_, None) => telling.put("none"),
        ("arguments", Some(arguments)) => telling.put_number(arguments.all().len()),
        ("argument", Some(arguments)) => telling.put(input_name(arguments.named(words))),
        (_, Some(arguments)) => {
            let given = names(alloc, words)?;
            telling.put_yes_or_no(arguments.is_any_missing(&given));
        }
    }
    Ok(())
}

/// The type `Hero` or `[Hero]!`.
fn type_ref(alloc: Global, text: &str) -> Result<TypeRef, NoAnswer> {
    let word = text.trim_start_matches("[").trim_end_matches("]!");
    let named = TypeRef::Named(Name {
        text: SmallText::from_str(alloc, word)?,
        span: Span { start: 0, end: 0 },
    });
    if word == text {
        return Ok(named);
    }
    let list = TypeRef::List(Box::new(alloc, named)?);
    Ok(TypeRef::NonNull(Box::new(alloc, list)?))
}

/// Tells whether one type is, or may be, a subtype of another, asked as `is_subtype Hero Node`.
fn tell_subtype(
    alloc: Global,
    types: &Types,
    asked: &str,
    telling: &mut Telling,
) -> Result<(), NoAnswer> {
    let (function, words) = cut(asked);
    let (sub, super_type) = cut(words);
    let sub = type_ref(alloc, sub)?;
    let super_type = type_ref(alloc, super_type)?;
    telling.put_yes_or_no(match function {
        "is_subtype" => types.is_subtype(&sub, &super_type),
        _ => types.may_be_subtype(&sub, &super_type),
    });
    Ok(())
}

/// Tells what a question asks of types.
fn tell_of(
    alloc: Global,
    types: &Types,
    asked: &str,
    telling: &mut Telling,
) -> Result<(), NoAnswer> {
    let (function, words) = cut(asked);
    if tell_names(types, function, words, telling) {
        return Ok(());
    }
    match function {
        "is_subtype" | "may_be_subtype" => tell_subtype(alloc, types, asked, telling),
        "argument" | "arguments" | "is_any_missing" => tell_arguments(alloc, types, asked, telling),
        "is_field_missing" => {
            let (word, words) = cut(words);
            let given = names(alloc, words)?;
            telling.put_yes_or_no(types.is_field_missing(word, &given));
            Ok(())
        }
        _ => tell_lists(alloc, types, asked, telling),
    }
}

/// Tells what the types of the given texts answer to a question.
pub fn tell_types(alloc: Global, row: &Row<'_>, telling: &mut Telling) -> Result<(), NoAnswer> {
    let asked = row.asked(alloc)?;
    let mut text = String::new(alloc);
    for entry in &row.given {
        text.push_str(entry.text(alloc)?.as_str())?;
        text.push_str("\n")?;
    }
    let types = types_of(alloc, text.as_str())?;
    tell_of(alloc, &types, asked.as_str(), telling)
}
