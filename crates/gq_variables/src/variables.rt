//! The variables of an operation, found by their names.
ghost use Rattle.std.specs.Prelude.{◌≡◌, ◌++◌, [], IfOk, OnOk, map, find};
ghost use Rattle.std.specs.Option.{option_map};
ghost use Rattle.std.specs.List.{list_any};
ghost use Rattle.std.specs.Str.{bytes_eq};
ghost use Rattle.gq_tree.specs.Views.{variable_view};
ghost use Rattle.gq_variables.specs.Helping.VariablePlaces.{variable_texts, repeated_variables};
ghost use Rattle.gq_variables.specs.Helping.Views.{variables_view};

use gq_names::NameList;
use gq_text::NoMemory;
use gq_tree::VariableDefinition;
use std::alloc::Global;

/// The variables of an operation in their order, each found by its name.
#[derive(Drop)]
pub struct Variables<'a> {
    pub all: &'a [VariableDefinition],
    names: NameList,
    ghost are_named: { names ≡ variable_texts (map variable_view all.now) },
}

/// Puts the names behind the others, and the variables whose name was there before.
#[tactic(auto, using(gq_tree::proofs::Trees::gathers))]
fn put_repeated<'a>(
    all: &'a [VariableDefinition],
    names: &mut NameList,
    repeated: &mut Vec<&'a VariableDefinition>,
) -> Result<(), NoMemory>
    ensures found { OnOk result (variables_view repeated.new.items ≡ variables_view repeated.old.items ++ repeated_variables names.old (map variable_view all.now)) }
    ensures names { OnOk result (names.new ≡ names.old ++ variable_texts (map variable_view all.now)) }
{
    for variable in all {
        if !names.push(variable.variable.name.text.as_str())? {
            repeated.push(variable)?;
        }
    }
    Ok(())
}

impl<'a> Variables<'a> {
    /// These variables. Puts those whose name an earlier one has behind the others in `repeated`.
    pub fn of(
        alloc: Global,
        all: &'a [VariableDefinition],
        repeated: &mut Vec<&'a VariableDefinition>,
    ) -> Result<Variables<'a>, NoMemory>
        ensures all { IfOk result (λ variables. map variable_view variables.all.now ≡ map variable_view all.now) }
        ensures repeated { OnOk result (variables_view repeated.new.items ≡ variables_view repeated.old.items ++ repeated_variables [] (map variable_view all.now)) }
    {
        let mut names = NameList::new(alloc);
        put_repeated(all, &mut names, repeated)?;
        Ok(Variables { all, names })
    }

    /// Whether one has that name. It takes no memory.
    pub fn contains(&self, name: &str) -> bool
        ensures { result ≡ list_any (bytes_eq name.now) (variable_texts (map variable_view self.now.all.now)) }
    {
        self.names.contains(name)
    }

    /// The first of that name. It takes no memory.
    pub fn first(&self, name: &str) -> Option<&'a VariableDefinition>
        ensures { option_map (λ v. variable_view v.now) result ≡ find (λ v. bytes_eq name.now v.name.text) (map variable_view self.now.all.now) }
    {
        match self.names.place(name) {
            Some(place) => Some(&self.all[place]),
            None => None,
        }
    }
}
