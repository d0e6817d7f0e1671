//! Directives and default values in a type system.
ghost use Rattle.std.specs.Prelude.{◌≡◌, ◌++◌, OnOk, IfOk, length, map};
ghost use Rattle.std.specs.Arc.{arc_value};
ghost use Rattle.gq_tree.specs.Views.{directive_view, input_view, type_system_view};
ghost use Rattle.gq_types.specs.Entries.{entry_view, entries_view};
ghost use Rattle.gq_types.specs.Look.{types_view};
ghost use Rattle.gq_values.specs.DirectivePlaces.{directive_texts};
ghost use Rattle.gq_type_system.specs.Helping.Groups.{at_number};
ghost use Rattle.gq_type_system.specs.DirectivesAndDefaults.{sites_in, own_names, all_inputs, told};
ghost use Rattle.gq_type_system.specs.Helping.DirectivesAndDefaultsPlaces.{site_view, sites_view, inputs_view, group_view, site_fault, site_faults, default_fault};
ghost use Rattle.gq_type_system.specs.Helping.DirectivesAndDefaultsPlaces.{default_faults, own_faults, group_faults, itself, group_of, group_faults_of};

use crate::directive_sites::{DirectiveSite, own_site, put_inputs, put_sites};
use crate::judged::is_judged;
use gq_fault::{Code, Fault};
use gq_names::NameList;
use gq_text::NoMemory;
use gq_tree::{Directive, InputValueDefinition};
use gq_types::{Entry, Types};
use gq_values::expected_type::default_at;
use gq_values::{add_directive_faults, add_literal_faults};
use std::alloc::Global;

fn add_site_fault(
    alloc: Global,
    types: &Types,
    file: usize,
    site: &DirectiveSite<'_>,
    faults: &mut Vec<Fault>,
) -> Result<(), NoMemory>
    ensures { OnOk result (faults.new.items ≡ faults.old.items ++ site_fault (types_view types.now) file (site_view site.now)) }
{
    let mut before = NameList::new(alloc);
    add_directive_faults(
        alloc,
        types,
        file,
        site.location,
        &mut before,
        site.directives,
        faults,
    )
}

fn add_site_faults(
    alloc: Global,
    types: &Types,
    file: usize,
    sites: &[DirectiveSite<'_>],
    faults: &mut Vec<Fault>,
) -> Result<(), NoMemory>
    ensures { OnOk result (faults.new.items ≡ faults.old.items ++ site_faults (types_view types.now) file (sites_view sites.now)) }
{
    for site in sites {
        add_site_fault(alloc, types, file, site, faults)?;
    }
    Ok(())
}

#[tactic(auto, using(gq_tree::proofs::Trees::gathers))]
fn add_default_fault(
    alloc: Global,
    types: &Types,
    file: usize,
    input: &InputValueDefinition,
    faults: &mut Vec<Fault>,
) -> Result<(), NoMemory>
    ensures { OnOk result (faults.new.items ≡ faults.old.items ++ default_fault (types_view types.now) file (input_view input.now)) }
{
    match &input.default {
        Some(value) => {
            let reading = default_at(types, &input.type_ref);
            add_literal_faults(alloc, types, file, reading, value, faults)
        }
        None => Ok(()),
    }
}

fn add_default_faults(
    alloc: Global,
    types: &Types,
    file: usize,
    inputs: &[&InputValueDefinition],
    faults: &mut Vec<Fault>,
) -> Result<(), NoMemory>
    ensures { OnOk result (faults.new.items ≡ faults.old.items ++ default_faults (types_view types.now) file (inputs_view inputs.now)) }
{
    for input in inputs {
        add_default_fault(alloc, types, file, input, faults)?;
    }
    Ok(())
}

/// The faults of the directives in an entry, and of its default values. Both lists are emptied first.
#[tactic(auto, using(gq_tree::proofs::Trees::gathers))]
pub(crate) fn add_inner_faults_of<'a>(
    alloc: Global,
    types: &Types,
    entry: &'a Entry,
    sites: &mut Vec<DirectiveSite<'a>>,
    inputs: &mut Vec<&'a InputValueDefinition>,
    faults: &mut Vec<Fault>,
) -> Result<(), NoMemory>
    ensures { OnOk result
        (faults.new.items ≡ faults.old.items ++
        (site_faults (types_view types.now) entry.now.file (sites_in (type_system_view (arc_value entry.now.definition))) ++ default_faults
        (types_view types.now) entry.now.file (all_inputs (type_system_view (arc_value entry.now.definition))))) }
{
    sites.clear();
    put_sites(&entry.definition, sites)?;
    add_site_faults(alloc, types, entry.file, sites, faults)?;
    inputs.clear();
    put_inputs(&entry.definition, inputs)?;
    add_default_faults(alloc, types, entry.file, inputs, faults)
}

fn put_names(directives: &[Directive], names: &mut NameList) -> Result<(), NoMemory>
    ensures { OnOk result (names.new ≡ names.old ++ directive_texts (map directive_view directives.now)) }
{
    for directive in directives {
        names.push(directive.name.text.as_str())?;
    }
    Ok(())
}

/// The faults of the directives on an entry itself, behind directives of the names `before`. Afterwards `before` has their
/// names too.
#[tactic(auto, using(gq_tree::proofs::Trees::gathers))]
fn add_own_faults(
    alloc: Global,
    types: &Types,
    before: &mut NameList,
    entry: &Entry,
    faults: &mut Vec<Fault>,
) -> Result<(), NoMemory>
    ensures found { OnOk result (faults.new.items ≡ faults.old.items ++ own_faults (types_view types.now) before.old (entry_view entry.now)) }
    ensures names { OnOk result (before.new ≡ before.old ++ own_names (entry_view entry.now)) }
{
    let Some(site) = own_site(&entry.definition) else {
        return Ok(());
    };
    if !is_judged(&entry.definition) {
        return put_names(site.directives, before);
    }
    add_directive_faults(
        alloc,
        types,
        entry.file,
        site.location,
        before,
        site.directives,
        faults,
    )
}

#[tactic(auto, using(gq_tree::proofs::Trees::gathers))]
fn add_group_faults(
    alloc: Global,
    types: &Types,
    before: &mut NameList,
    group: &[&Entry],
    faults: &mut Vec<Fault>,
) -> Result<(), NoMemory>
    ensures { OnOk result (faults.new.items ≡ faults.old.items ++ group_faults (types_view types.now) before.old (group_view group.now)) }
{
    for entry in group {
        add_own_faults(alloc, types, before, entry, faults)?;
    }
    Ok(())
}

fn put_entry<'a>(entry: &'a Entry, group: &mut Vec<&'a Entry>) -> Result<(), NoMemory>
    ensures { OnOk result (group_view group.new.items ≡ group_view group.old.items ++ itself (entry_view entry.now)) }
{
    group.push(entry)?;
    Ok(())
}

#[tactic(auto, using(crate::proofs::GroupLemmas::groups))]
fn put_entry_at<'a>(
    entries: &'a [Entry],
    number: usize,
    group: &mut Vec<&'a Entry>,
) -> Result<(), NoMemory>
    ensures { OnOk result (group_view group.new.items ≡ group_view group.old.items ++ at_number itself (entries_view entries.now) number) }
{
    match entries.get(number) {
        Some(entry) => put_entry(entry, group),
        None => Ok(()),
    }
}

/// The entries that belong to that number, in order.
#[tactic(auto, using(crate::proofs::GroupLemmas::groups))]
fn group_of<'a>(alloc: Global, types: &'a Types, number: usize) -> Result<Vec<&'a Entry>, NoMemory>
    ensures { IfOk result (λ group. group_view group.items ≡ group_of (types_view types.now) number) }
{
    let entries = types.entries();
    let mut group = Vec::new(alloc);
    let numbers = types.joined(number);
    for one in numbers {
        put_entry_at(entries, *one, &mut group)?;
    }
    Ok(group)
}

/// The faults of the directives on the entries themselves that belong to that number.
pub(crate) fn add_group_faults_of(
    alloc: Global,
    types: &Types,
    number: usize,
    faults: &mut Vec<Fault>,
) -> Result<(), NoMemory>
    ensures { OnOk result (faults.new.items ≡ faults.old.items ++ group_faults_of (types_view types.now) number) }
{
    let group = group_of(alloc, types, number)?;
    let mut before = NameList::new(alloc);
    add_group_faults(alloc, types, &mut before, &group, faults)
}

/// Adds these faults behind the others, each under the code of this rule.
fn put_told(found: &[Fault], faults: &mut Vec<Fault>) -> Result<(), NoMemory>
    ensures { OnOk result (faults.new.items ≡ faults.old.items ++ map told found.now) }
{
    for fault in found {
        faults.push(Fault {
            file: fault.file,
            start: fault.start,
            code: Code::BadDirectiveOrDefault,
            end: fault.end,
        })?;
    }
    Ok(())
}

/// Each fault of the directives in a type system and of the default values of arguments and input fields (sections 3.3 to 3.13, 5.4, 5.6 and
/// 5.7). Given are those in entries, and those on the entries that belong to the number of one; to these it adds those of the number behind.
#[tactic(auto, using(gq_tree::proofs::Trees::gathers))]
pub(crate) fn add_bad_directives_and_defaults(
    alloc: Global,
    types: &Types,
    inner: &[Fault],
    outer: &mut Vec<Fault>,
    faults: &mut Vec<Fault>,
) -> Result<(), NoMemory>
    ensures { OnOk result (faults.new.items ≡ faults.old.items
        ++ map told (inner.now ++ (outer.old.items ++ group_faults_of (types_view types.now) (length (types_view types.now))))) }
{
    let entries = types.entries();
    add_group_faults_of(alloc, types, entries.len(), outer)?;
    put_told(inner, faults)?;
    put_told(outer, faults)
}
