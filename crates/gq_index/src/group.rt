//! The group of a variable: the definitions in which its name means one variable.
//!
//! It is reached in a graph. A number below the count of definitions stands for a member of the group. The same number a count
//! further on stands for a fragment that an operation of the group reaches, and two counts further on for a definition that leads to a fragment
//! of the group that uses the variable. So each spread is gone over at most three times.
ghost use Rattle.std.specs.Prelude.{◌≡◌, ◌↔◌, ◌+◌, ◌^◌, ◌<◌, ◌≤◌, ℕ, [], List, All, Contains, IfOk, filter, length, map};
ghost use Rattle.std.specs.Bool.{nat_lt};
ghost use Rattle.std.specs.List.Sorted.{IsStrictlyIncreasing};
ghost use Rattle.gq_index.specs.Helping.GroupGraphs.{leads_of_member, leads_of_reached, leads_of_leading, leads_of};
ghost use Rattle.gq_index.specs.Indexed.{IsIndexOf};
ghost use Rattle.gq_index.specs.Occurrences.{DefinitionOf};
ghost use Rattle.gq_index.specs.Helping.Shared.{operation_at, uses_at, shared};
ghost use Rattle.gq_index.specs.VariableGroups.{VariableGroup};

use crate::index::{Index, Tables};
use gq_graph::{Graph, reach};
use gq_text::NoMemory;
use std::alloc::Global;

/// What the definitions of a project share of a variable.
#[derive(Clone, Copy)]
struct Shared<'a> {
    tables: &'a Tables,
    name: &'a str,
}

/// The numbers, each that much further on.
fn further(alloc: Global, by: usize, numbers: &[usize]) -> Result<Vec<usize>, NoMemory>
    requires { All (λ n. by + n < 2 ^ 63) numbers.now }
    ensures { IfOk result (λ all. all.items ≡ map (λ n. by + n) numbers.now) }
{
    let mut all = Vec::new(alloc);
    for number in numbers {
        all.push(by + *number)?;
    }
    Ok(all)
}

impl Shared<'_> {
    /// How many definitions there are.
    fn count(&self) -> usize
        ensures count { result ≡ length self.now.tables.now.spread_in.items }
        ensures few { result + result + result < 2 ^ 63 }
    {
        self.tables.spread_in.as_slice().len()
    }

    fn is_operation(&self, number: usize) -> bool
        ensures { result ≡ operation_at self.now.tables.now number }
    {
        match self.tables.operations.get(number) {
            Some(is_operation) => *is_operation,
            None => false,
        }
    }

    fn uses(&self, number: usize) -> bool
        ensures { result ≡ uses_at self.now.tables.now self.now.name.now number }
    {
        match self.tables.variables(number) {
            Some(variables) => !variables.uses.get(self.name).is_empty(),
            None => false,
        }
    }

    /// What a member of the group leads to.
    fn next_of_member(&self, alloc: Global, number: usize) -> Result<Vec<usize>, NoMemory>
        requires { number < length self.now.tables.now.spread_in.items }
        ensures { IfOk result (λ all. all.items ≡ leads_of_member (shared self.now.tables.now self.now.name.now) number) }
    {
        let count = self.count();
        if self.is_operation(number) {
            return further(alloc, count, &self.tables.spread_in[number]);
        }
        if self.uses(number) {
            return further(alloc, count + count, &self.tables.spreading[number]);
        }
        Ok(Vec::new(alloc))
    }

    /// What a fragment that an operation of the group reaches leads to.
    fn next_of_reached(&self, alloc: Global, number: usize) -> Result<Vec<usize>, NoMemory>
        requires { number < length self.now.tables.now.spread_in.items }
        ensures { IfOk result (λ all. all.items ≡ leads_of_reached (shared self.now.tables.now self.now.name.now) number) }
    {
        let mut all = further(alloc, self.count(), &self.tables.spread_in[number])?;
        if self.uses(number) {
            all.push(number)?;
        }
        Ok(all)
    }

    /// What a definition that leads to a fragment of the group leads to.
    fn next_of_leading(&self, alloc: Global, number: usize) -> Result<Vec<usize>, NoMemory>
        requires { number < length self.now.tables.now.spread_in.items }
        ensures { IfOk result (λ all. all.items ≡ leads_of_leading (shared self.now.tables.now self.now.name.now) number) }
    {
        let count = self.count();
        if self.is_operation(number) {
            return Ok(vec![in alloc; number]?);
        }
        further(alloc, count + count, &self.tables.spreading[number])
    }
}

impl Graph for Shared<'_> {
    ghost count = { λ s. length s.tables.now.spread_in.items + length s.tables.now.spread_in.items + length s.tables.now.spread_in.items };

    ghost leads = { λ s. leads_of (shared s.tables.now s.name.now) };

    fn size(&self) -> usize {
        let count = self.count();
        count + count + count
    }

    fn next(&self, alloc: Global, number: usize) -> Result<Vec<usize>, NoMemory> {
        let count = self.count();
        if number < count {
            return self.next_of_member(alloc, number);
        }
        if number < count + count {
            return self.next_of_reached(alloc, number - count);
        }
        self.next_of_leading(alloc, number - (count + count))
    }
}

/// Those of the numbers that are below the count.
fn below(alloc: Global, count: usize, numbers: &[usize]) -> Result<Vec<usize>, NoMemory>
    ensures { IfOk result (λ all. all.items ≡ filter (λ n. nat_lt n count) numbers.now) }
{
    let mut all = Vec::new(alloc);
    for number in numbers {
        if *number < count {
            all.push(*number)?;
        }
    }
    Ok(all)
}

impl Index {
    /// The numbers of the definitions in which the name means the variable that it means in the definition of that number,
    /// ascending: with an operation those of the fragments that it reaches and that use the variable, and with such a fragment
    /// those of all operations that reach it. Past the last definition there is none.
    pub fn variable_group(
        &self,
        alloc: Global,
        definition: usize,
        name: &str,
    ) -> Result<Vec<usize>, NoMemory>
        ensures group { IfOk result (λ numbers. (ds : List DefinitionOf) → IsIndexOf ds self.now → definition < length ds → (n : ℕ) →
            Contains numbers.items n ↔ VariableGroup ds name.now definition n) }
        ensures past { IfOk result (λ numbers. (ds : List DefinitionOf) → IsIndexOf ds self.now → length ds ≤ definition → numbers.items ≡ []) }
        ensures ascending { IfOk result (λ numbers. IsStrictlyIncreasing numbers.items) }
    {
        let shared = Shared {
            tables: &self.tables,
            name,
        };
        let count = shared.count();
        if definition >= count {
            return Ok(Vec::new(alloc));
        }
        let reached = reach(alloc, &shared, &[definition])?;
        let mut numbers = below(alloc, count, &reached)?;
        numbers.sort_unstable();
        numbers.dedup();
        Ok(numbers)
    }
}
