//! The memory of what documents are read as, given back by several threads.
ghost use Rattle.std.specs.Thread.{IsSync};

use gq_tree::Parsed;
use std::thread::{Threads, join};

/// How often the readings are halved to be given back: twice, for four threads.
const HALVINGS: usize = 2;

/// Gives back the memory of readings, a quarter of them in each of four threads. A large project has hundreds of
/// thousands of parts that are each given back.
pub fn give_back<R: Threads + Sync>(rt: &R, readings: Vec<Parsed>) {
    give_back_halves(rt, readings, HALVINGS)
}

/// The same, halved that often. Where there is no memory for the halves they are given back in this thread.
#[cycle(halves)]
fn give_back_halves<R: Threads + Sync>(rt: &R, mut readings: Vec<Parsed>, halvings: usize) {
    if halvings == 0 {
        return;
    }
    let left = halvings - 1;
    let Ok(others) = readings.split_off(readings.len() / 2) else {
        return;
    };
    let give_front = ||
        requires { IsSync R.row }
    { give_back_halves(rt, readings, left) };
    let give_others = ||
        requires { IsSync R.row }
    { give_back_halves(rt, others, left) };
    join(rt, give_front, give_others);
}
