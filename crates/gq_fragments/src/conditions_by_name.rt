//! The type conditions of fragments under the fragments' names, each once (GraphQL, October 2021, section 2.8.1).
ghost use Rattle.std.specs.Prelude.{◌≡◌, IfOk, OnOk};
ghost use Rattle.std.specs.List.{list_any};
ghost use Rattle.std.specs.Str.{bytes_eq};
ghost use Rattle.gq_types.specs.LookUps.{texts_of};
ghost use Rattle.gq_document.specs.Definitions.{fragment_view, fragments_view};
ghost use Rattle.gq_fragments.specs.Helping.ConditionsPlaces.{HoldConditions, TakesIn};

use gq_document::FragmentEntry;
use gq_names::ByName;
use gq_text::NoMemory;
use std::alloc::Global;

/// Whether the condition is one of these.
fn is_among(condition: &str, conditions: &[&str]) -> bool
    ensures { result ≡ list_any (bytes_eq condition.now) (texts_of conditions.now) }
{
    for one in conditions {
        if condition == *one {
            return true;
        }
    }
    false
}

/// Keeps the type condition of the fragment under its name, if it is new there.
fn put_condition<'a>(
    fragment: &FragmentEntry<'a>,
    conditions: &mut ByName<&'a str>,
) -> Result<(), NoMemory>
    ensures { OnOk result (TakesIn (fragment_view fragment.now) conditions.old conditions.new) }
{
    let name = fragment.definition.name.text.as_str();
    let condition = fragment.definition.on.text.as_str();
    if is_among(condition, conditions.get(name)) {
        return Ok(());
    }
    conditions.put(name, condition)
}

/// Under each name the type conditions of the fragments of that name, each text once.
pub(crate) fn conditions_by_name<'a>(
    alloc: Global,
    fragments: &'a [FragmentEntry<'a>],
) -> Result<ByName<&'a str>, NoMemory>
    ensures { IfOk result (λ conditions. HoldConditions (fragments_view fragments.now) conditions) }
{
    let mut conditions = ByName::new(alloc);
    for fragment in fragments {
        put_condition(fragment, &mut conditions)?;
    }
    Ok(conditions)
}
