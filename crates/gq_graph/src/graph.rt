//! What can be reached, where what a number leads to is computed when its turn comes.
ghost use Rattle.std.specs.Prelude.{◌≡◌, ℕ, ◌<◌, All, Contains, IfOk, List};
ghost use Rattle.gq_graph.specs.Reach.{Reach, NoneTwice};

use crate::gathered::{listed, put_all};
use gq_text::NoMemory;
use indexmap::IndexSet;
use std::alloc::Global;

/// A graph: what each number below a count leads to.
pub trait Graph {
    ghost count: { Self → ℕ };

    ghost leads: { Self → ℕ → List ℕ };

    /// How many numbers there are.
    fn size(&self) -> usize
        ensures { result ≡ count self.now };

    /// What a number leads to.
    fn next(&self, alloc: Global, number: usize) -> Result<Vec<usize>, NoMemory>
        requires { number < count self.now }
        ensures value { IfOk result (λ v. v.items ≡ leads self.now number) }
        ensures range { IfOk result (λ v. All (λ n. n < count self.now) v.items) };
}

/// All that can be reached from the starts, each number once. It costs time and memory for what is found alone, however
/// many numbers there are.
pub fn reach<G: Graph>(alloc: Global, graph: &G, starts: &[usize]) -> Result<Vec<usize>, NoMemory>
    requires starts { All (λ n. n < G.count graph.now) starts.now }
    ensures sound { IfOk result (λ found. All (λ n. Reach starts.now (G.leads graph.now) n) found.items) }
    ensures complete { IfOk result (λ found. (n : ℕ) → Reach starts.now (G.leads graph.now) n → Contains found.items n) }
    ensures once { IfOk result (λ found. NoneTwice found.items) }
    ensures within { IfOk result (λ found. All (λ n. n < G.count graph.now) found.items) }
{
    let mut found = IndexSet::new(alloc);
    put_all(&mut found, starts)?;
    let mut done = 0;
    while done < found.len() {
        let number = found.as_slice()[done];
        let row = graph.next(alloc, number)?;
        put_all(&mut found, &row)?;
        done += 1;
    }
    let list = listed(alloc, &found)?;
    Ok(list)
}
