//! Numbers that were found, each once.
ghost use Rattle.std.specs.Prelude.{◌≡◌, ℕ, ◌<◌, length, All, IfOk, OnOk, []};
ghost use Rattle.gq_graph.specs.Helping.Found.{Marked, Grown, Added};

use gq_text::NoMemory;
use std::alloc::Global;

/// Numbers below a count in the order in which they were found, and for each number below the count whether it was found.
#[derive(Drop)]
pub struct Found {
    pub numbers: Vec<usize>,
    pub marks: Vec<bool>,
}

impl Found {
    /// No number is found yet.
    #[tactic(auto, using(crate::proofs::Marking::marked_none))]
    pub fn new(alloc: Global, count: usize) -> Result<Found, NoMemory>
        ensures marked { IfOk result (λ found. Marked found.marks.items found.numbers.items) }
        ensures empty { IfOk result (λ found. found.numbers.items ≡ []) }
        ensures count { IfOk result (λ found. length found.marks.items ≡ count) }
    {
        Ok(Found {
            numbers: Vec::new(alloc),
            marks: vec![in alloc; false; count]?,
        })
    }

    /// Takes the number in, if it is new.
    pub fn add(&mut self, number: usize) -> Result<(), NoMemory>
        requires range { number < length self.old.marks.items }
        requires marked { Marked self.old.marks.items self.old.numbers.items }
        ensures count { length self.new.marks.items ≡ length self.old.marks.items }
        ensures marked { OnOk result (Marked self.new.marks.items self.new.numbers.items) }
        ensures added { OnOk result (Added number self.old.numbers.items self.new.numbers.items) }
    {
        if !self.marks[number] {
            self.numbers.push(number)?;
            self.marks[number] = true;
        }
        Ok(())
    }

    /// Takes in those of the numbers that are new, in their order.
    pub fn add_all(&mut self, numbers: &[usize]) -> Result<(), NoMemory>
        requires range { All (λ n. n < length self.old.marks.items) numbers.now }
        requires marked { Marked self.old.marks.items self.old.numbers.items }
        ensures count { length self.new.marks.items ≡ length self.old.marks.items }
        ensures marked { OnOk result (Marked self.new.marks.items self.new.numbers.items) }
        ensures grown { OnOk result (Grown numbers.now self.old.numbers.items self.new.numbers.items) }
    {
        for number in numbers {
            self.add(*number)?;
        }
        Ok(())
    }
}
