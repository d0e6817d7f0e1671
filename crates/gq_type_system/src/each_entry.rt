//! What the rules tell of single definitions and extensions, and of these with what belongs to them. Each is looked at once, by all such rules,
//! so that it comes from memory once.
ghost use Rattle.std.specs.Prelude.{◌≡◌, ◌++◌, true, [], IfOk, OnOk};
ghost use Rattle.std.specs.Arc.{arc_value};
ghost use Rattle.gq_tree.specs.Views.{type_system_view};
ghost use Rattle.gq_types.specs.Entries.{entry_view};
ghost use Rattle.gq_types.specs.Look.{types_view};
ghost use Rattle.gq_type_system.specs.Helping.DefinedTwicePlaces.{defined_twice, all_defined_twice};
ghost use Rattle.gq_type_system.specs.DirectivesAndDefaults.{all_inputs, sites_in};
ghost use Rattle.gq_type_system.specs.Uses.{defined_names, used_types};
ghost use Rattle.gq_type_system.specs.Helping.BadExtensionPlaces.{bad_extension, bad_extensions};
ghost use Rattle.gq_type_system.specs.Helping.DirectivesAndDefaultsPlaces.{default_faults, faults_of_groups, group_faults_of, inner_faults, site_faults};
ghost use Rattle.gq_type_system.specs.Helping.EachEntry.{AreTold};
ghost use Rattle.gq_type_system.specs.Helping.EmptyOrRepeatedPlaces.{empty_type, empty_types, repeated_arguments, repeated_arguments_of, repeated_parts, repeated_parts_of};
ghost use Rattle.gq_type_system.specs.Helping.ImplementationsPlaces.{bad_implementation, bad_implementations};
ghost use Rattle.gq_type_system.specs.Helping.ReservedNamePlaces.{reserved_names, reserved_names_in};
ghost use Rattle.gq_type_system.specs.Helping.UnknownTypePlaces.{unknown_types, unknown_types_in};
ghost use Rattle.gq_type_system.specs.Helping.Untold.{IsUntold, IsUntoldAlone, IsUntoldTogether, NothingAlone, NothingTogether};
ghost use Rattle.gq_type_system.specs.Helping.WrongKindPlaces.{wrong_kinds, wrong_kinds_in};

use crate::bad_extension::add_bad_extension;
use crate::defined_twice::add_if_defined_twice;
use crate::directive_sites::DirectiveSite;
use crate::directives_and_defaults::{add_group_faults_of, add_inner_faults_of};
use crate::empty_or_repeated::{add_empty_type, add_repeated_arguments_of, add_repeated_parts_of};
use crate::implementations::add_bad_implementation;
use crate::judged::is_judged;
use crate::reserved_name::add_reserved_names_of;
use crate::used_types::put_faults_of;
use crate::uses::Use;
use gq_fault::Fault;
use gq_text::NoMemory;
use gq_tree::{InputValueDefinition, Name};
use gq_types::{Entry, Types};
use std::alloc::Global;

/// What is told of single entries, rule by rule.
#[derive(Drop)]
pub(crate) struct EntryFaults {
    pub(crate) defined_twice: Vec<Fault>,
    pub(crate) extensions: Vec<Fault>,
    pub(crate) reserved: Vec<Fault>,
    pub(crate) unknown: Vec<Fault>,
    pub(crate) wrong: Vec<Fault>,
    pub(crate) empty: Vec<Fault>,
    pub(crate) arguments: Vec<Fault>,
    pub(crate) inner: Vec<Fault>,
}

impl EntryFaults {
    /// Nothing is told. It takes no memory.
    fn nothing(alloc: Global) -> EntryFaults
        ensures defined_twice { result.defined_twice.items ≡ [] }
        ensures extensions { result.extensions.items ≡ [] }
        ensures reserved { result.reserved.items ≡ [] }
        ensures unknown { result.unknown.items ≡ [] }
        ensures wrong { result.wrong.items ≡ [] }
        ensures empty { result.empty.items ≡ [] }
        ensures arguments { result.arguments.items ≡ [] }
        ensures inner { result.inner.items ≡ [] }
    {
        EntryFaults {
            defined_twice: Vec::new(alloc),
            extensions: Vec::new(alloc),
            reserved: Vec::new(alloc),
            unknown: Vec::new(alloc),
            wrong: Vec::new(alloc),
            empty: Vec::new(alloc),
            arguments: Vec::new(alloc),
            inner: Vec::new(alloc),
        }
    }

    /// Whether nothing is told.
    fn is_empty(&self) -> bool
        ensures { result ≡ true → NothingAlone self.now }
    {
        self.defined_twice.is_empty()
            && self.extensions.is_empty()
            && self.reserved.is_empty()
            && self.unknown.is_empty()
            && self.wrong.is_empty()
            && self.empty.is_empty()
            && self.arguments.is_empty()
            && self.inner.is_empty()
    }
}

/// What is told of entries with those that belong to them, rule by rule.
#[derive(Drop)]
pub(crate) struct GroupFaults {
    pub(crate) repeated: Vec<Fault>,
    pub(crate) implementations: Vec<Fault>,
    pub(crate) outer: Vec<Fault>,
}

impl GroupFaults {
    /// Nothing is told. It takes no memory.
    fn nothing(alloc: Global) -> GroupFaults
        ensures repeated { result.repeated.items ≡ [] }
        ensures implementations { result.implementations.items ≡ [] }
        ensures outer { result.outer.items ≡ [] }
    {
        GroupFaults {
            repeated: Vec::new(alloc),
            implementations: Vec::new(alloc),
            outer: Vec::new(alloc),
        }
    }

    /// Whether nothing is told.
    fn is_empty(&self) -> bool
        ensures { result ≡ true → NothingTogether self.now }
    {
        self.repeated.is_empty() && self.implementations.is_empty() && self.outer.is_empty()
    }
}

/// What is told of entries, singly and with those that belong to them.
#[derive(Drop)]
pub(crate) struct Told {
    pub(crate) entries: EntryFaults,
    pub(crate) groups: GroupFaults,
}

/// Lists of what stands in an entry, which are emptied for the next one.
#[derive(Drop)]
struct Lists<'a> {
    names: Vec<&'a Name>,
    uses: Vec<Use<'a>>,
    sites: Vec<DirectiveSite<'a>>,
    inputs: Vec<&'a InputValueDefinition>,
}

impl<'a> Lists<'a> {
    /// Nothing stands in them. They take no memory.
    fn nothing(alloc: Global) -> Lists<'a>
        ensures names { result.names.items ≡ [] }
        ensures uses { result.uses.items ≡ [] }
        ensures sites { result.sites.items ≡ [] }
        ensures inputs { result.inputs.items ≡ [] }
    {
        Lists {
            names: Vec::new(alloc),
            uses: Vec::new(alloc),
            sites: Vec::new(alloc),
            inputs: Vec::new(alloc),
        }
    }
}

/// What is told of an entry that is judged.
fn look_at<'a>(
    alloc: Global,
    types: &Types,
    number: usize,
    entry: &'a Entry,
    lists: &mut Lists<'a>,
    told: &mut EntryFaults,
) -> Result<(), NoMemory>
    ensures defined_twice { OnOk result (told.new.defined_twice.items ≡ told.old.defined_twice.items ++ defined_twice (types_view types.now) number (entry_view entry.now)) }
    ensures extensions { OnOk result (told.new.extensions.items ≡ told.old.extensions.items
        ++ bad_extension (types_view types.now) entry.now.file (type_system_view (arc_value entry.now.definition))) }
    ensures reserved { OnOk result (told.new.reserved.items ≡ told.old.reserved.items ++ reserved_names_in entry.now.file (defined_names (type_system_view (arc_value entry.now.definition)))) }
    ensures unknown { OnOk result (told.new.unknown.items ≡ told.old.unknown.items
        ++ unknown_types_in (types_view types.now) entry.now.file (used_types (type_system_view (arc_value entry.now.definition)))) }
    ensures wrong { OnOk result (told.new.wrong.items ≡ told.old.wrong.items
        ++ wrong_kinds_in (types_view types.now) entry.now.file (used_types (type_system_view (arc_value entry.now.definition)))) }
    ensures empty { OnOk result (told.new.empty.items ≡ told.old.empty.items ++ empty_type (types_view types.now) number entry.now.file (type_system_view (arc_value entry.now.definition))) }
    ensures arguments { OnOk result (told.new.arguments.items ≡ told.old.arguments.items ++ repeated_arguments_of entry.now.file (type_system_view (arc_value entry.now.definition))) }
    ensures inner { OnOk result (told.new.inner.items ≡ told.old.inner.items
        ++ (site_faults (types_view types.now) entry.now.file (sites_in (type_system_view (arc_value entry.now.definition)))
        ++ default_faults (types_view types.now) entry.now.file (all_inputs (type_system_view (arc_value entry.now.definition))))) }
{
    add_if_defined_twice(types, number, entry, &mut told.defined_twice)?;
    add_bad_extension(types, entry, &mut told.extensions)?;
    add_reserved_names_of(entry, &mut lists.names, &mut told.reserved)?;
    put_faults_of(
        types,
        entry,
        &mut lists.uses,
        &mut told.unknown,
        &mut told.wrong,
    )?;
    add_empty_type(alloc, types, number, entry, &mut told.empty)?;
    add_repeated_arguments_of(alloc, entry, &mut told.arguments)?;
    let (sites, inputs) = (&mut lists.sites, &mut lists.inputs);
    add_inner_faults_of(alloc, types, entry, sites, inputs, &mut told.inner)
}

/// What is told of an entry with those that belong to its number.
fn look_at_group(
    alloc: Global,
    types: &Types,
    number: usize,
    entry: &Entry,
    told: &mut GroupFaults,
) -> Result<(), NoMemory>
    ensures repeated { OnOk result (told.new.repeated.items ≡ told.old.repeated.items ++ repeated_parts_of (types_view types.now) number) }
    ensures implementations { OnOk result (told.new.implementations.items ≡ told.old.implementations.items
        ++ bad_implementation (types_view types.now) number entry.now.file (type_system_view (arc_value entry.now.definition))) }
    ensures outer { OnOk result (told.new.outer.items ≡ told.old.outer.items ++ group_faults_of (types_view types.now) number) }
{
    add_repeated_parts_of(alloc, types, number, &mut told.repeated)?;
    add_bad_implementation(types, number, entry, &mut told.implementations)?;
    add_group_faults_of(alloc, types, number, &mut told.outer)
}

/// What is told of each entry that is judged, and of each with those that belong to its number.
fn look_at_all(
    alloc: Global,
    types: &Types,
    told: &mut EntryFaults,
    groups: &mut GroupFaults,
) -> Result<(), NoMemory>
    ensures defined_twice { OnOk result (told.new.defined_twice.items ≡ told.old.defined_twice.items ++ all_defined_twice (types_view types.now)) }
    ensures extensions { OnOk result (told.new.extensions.items ≡ told.old.extensions.items ++ bad_extensions (types_view types.now)) }
    ensures reserved { OnOk result (told.new.reserved.items ≡ told.old.reserved.items ++ reserved_names (types_view types.now)) }
    ensures unknown { OnOk result (told.new.unknown.items ≡ told.old.unknown.items ++ unknown_types (types_view types.now)) }
    ensures wrong { OnOk result (told.new.wrong.items ≡ told.old.wrong.items ++ wrong_kinds (types_view types.now)) }
    ensures empty { OnOk result (told.new.empty.items ≡ told.old.empty.items ++ empty_types (types_view types.now)) }
    ensures arguments { OnOk result (told.new.arguments.items ≡ told.old.arguments.items ++ repeated_arguments (types_view types.now)) }
    ensures inner { OnOk result (told.new.inner.items ≡ told.old.inner.items ++ inner_faults (types_view types.now)) }
    ensures repeated { OnOk result (groups.new.repeated.items ≡ groups.old.repeated.items ++ repeated_parts (types_view types.now)) }
    ensures implementations { OnOk result (groups.new.implementations.items ≡ groups.old.implementations.items ++ bad_implementations (types_view types.now)) }
    ensures outer { OnOk result (groups.new.outer.items ≡ groups.old.outer.items ++ faults_of_groups (types_view types.now)) }
{
    let mut lists = Lists::nothing(alloc);
    let entries = types.entries();
    for number in 0..entries.len() {
        if is_judged(&entries[number].definition) {
            look_at(alloc, types, number, &entries[number], &mut lists, told)?;
        }
        look_at_group(alloc, types, number, &entries[number], groups)?;
    }
    Ok(())
}

/// What is told of all entries.
pub(crate) fn told_of_entries(alloc: Global, types: &Types) -> Result<Told, NoMemory>
    ensures { IfOk result (AreTold (types_view types.now)) }
{
    let mut entries = EntryFaults::nothing(alloc);
    let mut groups = GroupFaults::nothing(alloc);
    look_at_all(alloc, types, &mut entries, &mut groups)?;
    Ok(Told { entries, groups })
}

/// Whether nothing is told of an entry that is judged.
fn is_untold_alone(
    alloc: Global,
    types: &Types,
    number: usize,
    entry: &Entry,
) -> Result<bool, NoMemory>
    ensures { IfOk result (λ untold. untold ≡ true → IsUntoldAlone (types_view types.now) (record { number = number; entry = entry_view entry.now })) }
{
    let mut lists = Lists::nothing(alloc);
    let mut told = EntryFaults::nothing(alloc);
    look_at(alloc, types, number, entry, &mut lists, &mut told)?;
    Ok(told.is_empty())
}

/// Whether nothing is told of an entry with those that belong to its number.
fn is_untold_together(
    alloc: Global,
    types: &Types,
    number: usize,
    entry: &Entry,
) -> Result<bool, NoMemory>
    ensures { IfOk result (λ untold. untold ≡ true → IsUntoldTogether (types_view types.now) (record { number = number; entry = entry_view entry.now })) }
{
    let mut groups = GroupFaults::nothing(alloc);
    look_at_group(alloc, types, number, entry, &mut groups)?;
    Ok(groups.is_empty())
}

/// Whether nothing is told of an entry, alone or with those that belong to its number.
pub(crate) fn is_untold(
    alloc: Global,
    types: &Types,
    number: usize,
    entry: &Entry,
) -> Result<bool, NoMemory>
    ensures { IfOk result (λ untold. untold ≡ true → IsUntold (types_view types.now) (record { number = number; entry = entry_view entry.now })) }
{
    if is_judged(&entry.definition) && !is_untold_alone(alloc, types, number, entry)? {
        return Ok(false);
    }
    is_untold_together(alloc, types, number, entry)
}
