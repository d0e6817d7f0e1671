//! Faults of arguments (GraphQL, October 2021, section 5.4).
ghost use Rattle.std.specs.Prelude.{◌≡◌, ◌++◌, OnOk, map, Some, None};
ghost use Rattle.gq_tree.specs.Views.{name_of, input_view, argument_view};
ghost use Rattle.gq_types.specs.Look.{types_view};
ghost use Rattle.gq_values.specs.LiteralPlaces.{texts};
ghost use Rattle.gq_values.specs.ArgumentFaults.{argument_names};
ghost use Rattle.gq_values.specs.ArgumentPlaces.{definitions_view, repeated_arguments, unknown_arguments, missing_among, known_faults, value_faults_of, argument_value_faults, argument_faults};

use crate::expected_type::ExpectedType;
use crate::literal_faults::add_literal_faults;
use gq_fault::{Code, Fault, add_fault, fault_at};
use gq_names::NameList;
use gq_text::NoMemory;
use gq_tree::{Argument, Name};
use gq_types::{Arguments, Types};
use std::alloc::Global;

#[tactic(auto, using(gq_tree::proofs::Trees::gathers))]
fn add_repeated_arguments(
    file: usize,
    arguments: &[Argument],
    names: &mut NameList,
    faults: &mut Vec<Fault>,
) -> Result<(), NoMemory>
    ensures found { OnOk result (faults.new.items ≡ faults.old.items ++ repeated_arguments file names.old (argument_names (map argument_view arguments.now))) }
    ensures names { OnOk result (names.new ≡ names.old ++ texts (argument_names (map argument_view arguments.now))) }
{
    for argument in arguments {
        if !names.push(argument.name.text.as_str())? {
            add_fault(
                fault_at(file, Code::ArgumentNotUnique, &argument.name),
                faults,
            )?;
        }
    }
    Ok(())
}

#[tactic(auto, using(gq_tree::proofs::Trees::gathers))]
fn add_unknown_arguments(
    file: usize,
    known: Arguments<'_>,
    arguments: &[Argument],
    faults: &mut Vec<Fault>,
) -> Result<(), NoMemory>
    ensures { OnOk result (faults.new.items ≡ faults.old.items ++ unknown_arguments file (map input_view known.entry.all.now) (argument_names (map argument_view arguments.now))) }
{
    for argument in arguments {
        if known.named(argument.name.text.as_str()).is_none() {
            add_fault(
                fault_at(file, Code::UnknownArgument, &argument.name),
                faults,
            )?;
        }
    }
    Ok(())
}

/// Adds a fault at the name of a field or directive, if an argument is missing.
fn add_missing_arguments(
    file: usize,
    known: Arguments<'_>,
    given: &NameList,
    name: &Name,
    faults: &mut Vec<Fault>,
) -> Result<(), NoMemory>
    ensures { OnOk result (faults.new.items ≡ faults.old.items ++ missing_among file (map input_view known.entry.all.now) given.now (name_of name.now)) }
{
    if known.is_any_missing(given) {
        add_fault(fault_at(file, Code::ArgumentMissing, name), faults)?;
    }
    Ok(())
}

fn add_faults_of_known_value(
    alloc: Global,
    types: &Types,
    file: usize,
    known: Arguments<'_>,
    argument: &Argument,
    faults: &mut Vec<Fault>,
) -> Result<(), NoMemory>
    ensures { OnOk result (faults.new.items ≡ faults.old.items ++ value_faults_of (types_view types.now) file (Some (map input_view known.entry.all.now)) (argument_view argument.now)) }
{
    let reading = match known.named(argument.name.text.as_str()) {
        Some(definition) => ExpectedType::AtType(&definition.type_ref),
        None => ExpectedType::AtAny,
    };
    add_literal_faults(alloc, types, file, reading, &argument.value, faults)
}

#[tactic(auto, using(gq_tree::proofs::Trees::gathers))]
fn add_faults_of_known_values(
    alloc: Global,
    types: &Types,
    file: usize,
    known: Arguments<'_>,
    arguments: &[Argument],
    faults: &mut Vec<Fault>,
) -> Result<(), NoMemory>
    ensures { OnOk result (faults.new.items ≡ faults.old.items ++ argument_value_faults (types_view types.now) file (Some (map input_view known.entry.all.now)) (map argument_view arguments.now)) }
{
    for argument in arguments {
        add_faults_of_known_value(alloc, types, file, known, argument, faults)?;
    }
    Ok(())
}

/// Puts what is wrong with arguments whose definitions are known.
fn add_known_faults(
    alloc: Global,
    types: &Types,
    file: usize,
    known: Arguments<'_>,
    given: &NameList,
    name: &Name,
    arguments: &[Argument],
    faults: &mut Vec<Fault>,
) -> Result<(), NoMemory>
    requires { given.now ≡ texts (argument_names (map argument_view arguments.now)) }
    ensures { OnOk result (faults.new.items ≡ faults.old.items ++ (known_faults file (Some (map input_view known.entry.all.now)) (name_of name.now) (argument_names (map argument_view arguments.now))
        ++ argument_value_faults (types_view types.now) file (Some (map input_view known.entry.all.now)) (map argument_view arguments.now))) }
{
    add_unknown_arguments(file, known, arguments, faults)?;
    add_missing_arguments(file, known, given, name, faults)?;
    add_faults_of_known_values(alloc, types, file, known, arguments, faults)
}

fn add_faults_of_value(
    alloc: Global,
    types: &Types,
    file: usize,
    argument: &Argument,
    faults: &mut Vec<Fault>,
) -> Result<(), NoMemory>
    ensures { OnOk result (faults.new.items ≡ faults.old.items ++ value_faults_of (types_view types.now) file None (argument_view argument.now)) }
{
    add_literal_faults(
        alloc,
        types,
        file,
        ExpectedType::AtAny,
        &argument.value,
        faults,
    )
}

#[tactic(auto, using(gq_tree::proofs::Trees::gathers))]
fn add_faults_of_values(
    alloc: Global,
    types: &Types,
    file: usize,
    arguments: &[Argument],
    faults: &mut Vec<Fault>,
) -> Result<(), NoMemory>
    ensures { OnOk result (faults.new.items ≡ faults.old.items ++ argument_value_faults (types_view types.now) file None (map argument_view arguments.now)) }
{
    for argument in arguments {
        add_faults_of_value(alloc, types, file, argument, faults)?;
    }
    Ok(())
}

/// Adds each fault of the arguments of a field or directive of that name: an argument that is unknown or
/// given twice or missing, and the faults of their values. The definitions are those of the field's or directive's
/// arguments, `None` where it is not known. `file` is the number of the document that they stand in.
#[tactic(auto, using(gq_tree::proofs::Trees::gathers))]
pub fn add_argument_faults(
    alloc: Global,
    types: &Types,
    file: usize,
    definitions: Option<Arguments<'_>>,
    name: &Name,
    arguments: &[Argument],
    faults: &mut Vec<Fault>,
) -> Result<(), NoMemory>
    ensures { OnOk result (faults.new.items ≡ faults.old.items ++ argument_faults (types_view types.now) file (definitions_view definitions.entry)
        (name_of name.now) (map argument_view arguments.now)) }
{
    let mut given = NameList::new(alloc);
    add_repeated_arguments(file, arguments, &mut given, faults)?;
    match definitions {
        Some(known) => {
            add_known_faults(alloc, types, file, known, &given, name, arguments, faults)
        }
        None => add_faults_of_values(alloc, types, file, arguments, faults),
    }
}
