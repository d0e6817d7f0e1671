//! Values as execution sees them (GraphQL, October 2021, section 6): of variables and arguments, and of leaf types.
ghost use Rattle.std.specs.Prelude.{◌≡◌, IfOk, map};
ghost use Rattle.gq_meaning.specs.Values.{is_null};
ghost use Rattle.gq_table.specs.Views.{value_view, entry_view};

use gq_text::{NoMemory, SmallText};
use std::alloc::Global;

/// A value with no parts. A number is its spelling.
#[derive(Drop)]
pub enum Leaf {
    Boolean(bool),
    Number(SmallText),
    Text(SmallText),
}

/// A value.
#[derive(Drop)]
#[cycle(value)]
pub enum Value {
    Null,
    Leaf(Leaf),
    Enum(SmallText),
    List(Vec<Value>),
    Object(Vec<Entry>),
}

/// A value under a name: an argument, an entry of an input object, or a variable.
#[derive(Drop)]
#[cycle(value)]
pub struct Entry {
    pub name: SmallText,
    pub value: Value,
}

impl Leaf {
    /// A copy.
    pub fn copied(&self, alloc: Global) -> Result<Leaf, NoMemory>
        ensures { IfOk result (λ v. v ≡ self.now) }
    {
        match self {
            Leaf::Boolean(b) => Ok(Leaf::Boolean(*b)),
            Leaf::Number(text) => Ok(Leaf::Number(text.copied(alloc)?)),
            Leaf::Text(text) => Ok(Leaf::Text(text.copied(alloc)?)),
        }
    }
}

impl Value {
    /// A copy.
    pub fn copied(&self, alloc: Global) -> Result<Value, NoMemory>
        ensures { IfOk result (λ v. value_view v ≡ value_view self.now) }
    {
        copied_value(alloc, self)
    }

    /// Whether it is null.
    #[tactic(auto, using(crate::proofs::Trees::values))]
    pub fn is_null(&self) -> bool
        ensures { result ≡ is_null (value_view self.now).label.says }
    {
        match self {
            Value::Null => true,
            Value::Leaf(_) => false,
            Value::Enum(_) => false,
            Value::List(_) => false,
            Value::Object(_) => false,
        }
    }
}

#[cycle(copied)]
#[tactic(auto, using(crate::proofs::Trees::values))]
fn copied_value(alloc: Global, value: &Value) -> Result<Value, NoMemory>
    ensures { IfOk result (λ v. value_view v ≡ value_view value.now) }
{
    match value {
        Value::Null => Ok(Value::Null),
        Value::Leaf(leaf) => Ok(Value::Leaf(leaf.copied(alloc)?)),
        Value::Enum(name) => Ok(Value::Enum(name.copied(alloc)?)),
        Value::List(items) => Ok(Value::List(copied_items(alloc, items)?)),
        Value::Object(entries) => Ok(Value::Object(copied_entries(alloc, entries)?)),
    }
}

#[cycle(copied)]
#[tactic(auto, using(crate::proofs::Trees::gathers))]
fn copied_items(alloc: Global, items: &[Value]) -> Result<Vec<Value>, NoMemory>
    ensures { IfOk result (λ copies. map value_view copies.items ≡ map value_view items.now) }
{
    let mut copies = Vec::with_capacity(alloc, items.len())?;
    for item in items {
        copies.push(copied_value(alloc, item)?)?;
    }
    Ok(copies)
}

#[cycle(copied)]
#[tactic(auto, using(crate::proofs::Trees::gathers))]
fn copied_entries(alloc: Global, entries: &[Entry]) -> Result<Vec<Entry>, NoMemory>
    ensures { IfOk result (λ copies. map entry_view copies.items ≡ map entry_view entries.now) }
{
    let mut copies = Vec::with_capacity(alloc, entries.len())?;
    for entry in entries {
        copies.push(copied_entry(alloc, entry)?)?;
    }
    Ok(copies)
}

#[cycle(copied)]
fn copied_entry(alloc: Global, entry: &Entry) -> Result<Entry, NoMemory>
    ensures { IfOk result (λ copy. entry_view copy ≡ entry_view entry.now) }
{
    let name = entry.name.copied(alloc)?;
    let value = copied_value(alloc, &entry.value)?;
    Ok(Entry { name, value })
}
