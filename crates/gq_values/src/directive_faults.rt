//! Faults of directives (GraphQL, October 2021, section 5.7).
ghost use Rattle.std.specs.Prelude.{◌≡◌, ◌++◌, OnOk, map};
ghost use Rattle.gq_tree.specs.Views.{directive_view};
ghost use Rattle.gq_types.specs.Look.{types_view};
ghost use Rattle.gq_values.specs.DirectivePlaces.{directive_texts, faults_of_directive, faults_of_directives, may_repeat, repetition_at, repetitions, directive_faults};

use crate::argument_faults::add_argument_faults;
use gq_fault::{Code, Fault, add_fault, fault_at};
use gq_names::NameList;
use gq_text::NoMemory;
use gq_tree::{Directive, DirectiveLocation};
use gq_types::Types;
use std::alloc::Global;

#[tactic(auto, using(gq_tree::proofs::Trees::gathers))]
fn add_faults_of_directive(
    alloc: Global,
    types: &Types,
    file: usize,
    location: DirectiveLocation,
    directive: &Directive,
    faults: &mut Vec<Fault>,
) -> Result<(), NoMemory>
    ensures { OnOk result (faults.new.items ≡ faults.old.items ++ faults_of_directive (types_view types.now) file location (directive_view directive.now)) }
{
    let (name, arguments) = (&directive.name, directive.arguments.as_slice());
    match types.directive(name.text.as_str()) {
        Some(_) => {
            if !types.stands_at(name.text.as_str(), location) {
                add_fault(fault_at(file, Code::DirectiveInWrongPlace, name), faults)?;
            }
            let definitions = types.directive_arguments(name.text.as_str());
            add_argument_faults(alloc, types, file, definitions, name, arguments, faults)
        }
        None => {
            add_fault(fault_at(file, Code::UnknownDirective, name), faults)?;
            add_argument_faults(alloc, types, file, None, name, arguments, faults)
        }
    }
}

#[tactic(auto, using(gq_tree::proofs::Trees::gathers))]
fn add_faults_of_directives(
    alloc: Global,
    types: &Types,
    file: usize,
    location: DirectiveLocation,
    directives: &[Directive],
    faults: &mut Vec<Fault>,
) -> Result<(), NoMemory>
    ensures { OnOk result (faults.new.items ≡ faults.old.items ++ faults_of_directives (types_view types.now) file location (map directive_view directives.now)) }
{
    for directive in directives {
        add_faults_of_directive(alloc, types, file, location, directive, faults)?;
    }
    Ok(())
}

/// Whether it may stand twice; a directive that is not known may.
fn may_repeat(types: &Types, name: &str) -> bool
    ensures { result ≡ may_repeat (types_view types.now) name.now }
{
    match types.directive(name) {
        Some(definition) => definition.repeatable,
        None => true,
    }
}

fn add_repetition(
    types: &Types,
    file: usize,
    directive: &Directive,
    faults: &mut Vec<Fault>,
) -> Result<(), NoMemory>
    ensures { OnOk result (faults.new.items ≡ faults.old.items ++ repetition_at (types_view types.now) file (directive_view directive.now)) }
{
    if !may_repeat(types, directive.name.text.as_str()) {
        add_fault(
            fault_at(file, Code::DirectiveRepeated, &directive.name),
            faults,
        )?;
    }
    Ok(())
}

#[tactic(auto, using(gq_tree::proofs::Trees::gathers))]
fn add_repetitions(
    types: &Types,
    file: usize,
    before: &mut NameList,
    directives: &[Directive],
    faults: &mut Vec<Fault>,
) -> Result<(), NoMemory>
    ensures found { OnOk result (faults.new.items ≡ faults.old.items ++ repetitions (types_view types.now) file before.old (map directive_view directives.now)) }
    ensures names { OnOk result (before.new ≡ before.old ++ directive_texts (map directive_view directives.now)) }
{
    for directive in directives {
        if !before.push(directive.name.text.as_str())? {
            add_repetition(types, file, directive, faults)?;
        }
    }
    Ok(())
}

/// Adds each fault of the directives at a place: a directive that is unknown, or may not stand at that
/// location, or stands twice and is not repeatable, and the faults of its arguments. Directives named in `before` stand
/// before them: those of the definition where the place is an extension. Afterwards it has these names too. `file` is the
/// number of the document that they stand in.
pub fn add_directive_faults(
    alloc: Global,
    types: &Types,
    file: usize,
    location: DirectiveLocation,
    before: &mut NameList,
    directives: &[Directive],
    faults: &mut Vec<Fault>,
) -> Result<(), NoMemory>
    ensures found { OnOk result (faults.new.items ≡ faults.old.items ++ directive_faults (types_view types.now) file location before.old (map directive_view directives.now)) }
    ensures names { OnOk result (before.new ≡ before.old ++ directive_texts (map directive_view directives.now)) }
{
    add_faults_of_directives(alloc, types, file, location, directives, faults)?;
    add_repetitions(types, file, before, directives, faults)
}
