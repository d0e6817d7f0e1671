//! What numbers lead to, by steps from one to another.
use crate::no_answer::NoAnswer;
use crate::row::Row;
use crate::telling::Telling;
use gq_graph::transposed::transposed;
use gq_graph::{are_below, components, is_in_range, on_cycles, reach_rows};
use std::alloc::Global;

/// A table with so many rows, each of them holding what its number leads to: `3: 0-1 0-2 1-2` says the count and the steps.
fn table(alloc: Global, text: &str) -> Result<Vec<Vec<usize>>, NoAnswer> {
    let (count, steps) = text.split_once(':').ok_or(NoAnswer)?;
    let count: usize = count.trim().parse()?;
    let mut rows = Vec::new(alloc);
    for _ in 0..count {
        rows.push(Vec::new(alloc))?;
    }
    for step in steps.split_whitespace() {
        let (from, to) = step.split_once('-').ok_or(NoAnswer)?;
        let (from, to): (usize, usize) = (from.parse()?, to.parse()?);
        if from < rows.len() {
            rows[from].push(to)?;
        }
    }
    Ok(rows)
}

/// The numbers that blanks part.
fn numbers(alloc: Global, text: &str) -> Result<Vec<usize>, NoAnswer> {
    let mut all = Vec::new(alloc);
    for word in text.split_whitespace() {
        let number: usize = word.parse()?;
        all.push(number)?;
    }
    Ok(all)
}

fn put_numbers(numbers: &[usize], telling: &mut Telling) {
    for number in numbers {
        telling.put(if telling.is_empty() { "" } else { " " });
        telling.put_number(*number);
    }
}

/// Puts `#` for each number that leads back to itself, and `.` for each other one.
fn put_cycles(alloc: Global, rows: &[Vec<usize>], telling: &mut Telling) -> Result<(), NoAnswer> {
    if !is_in_range(rows) {
        return Err(NoAnswer);
    }
    for mark in &on_cycles(alloc, rows)? {
        telling.put(if *mark { "#" } else { "." });
    }
    Ok(())
}

/// Puts the least number of each number's component.
fn put_components(
    alloc: Global,
    rows: &[Vec<usize>],
    telling: &mut Telling,
) -> Result<(), NoAnswer> {
    if !is_in_range(rows) {
        return Err(NoAnswer);
    }
    let all = components(alloc, rows)?;
    let mut least = Vec::new(alloc);
    for component in &all {
        if let Some(place) = all.iter().position(|other| *other == *component) {
            least.push(place)?;
        }
    }
    put_numbers(&least, telling);
    Ok(())
}

/// Puts what is reached from the starts.
fn put_reached(
    alloc: Global,
    rows: &[Vec<usize>],
    starts: &[usize],
    telling: &mut Telling,
) -> Result<(), NoAnswer> {
    if !is_in_range(rows) || !are_below(starts, rows.len()) {
        telling.put("a number without a row");
        return Ok(());
    }
    put_numbers(&reach_rows(alloc, rows, starts)?, telling);
    Ok(())
}

/// Puts what leads to each number, a row behind the other.
fn put_transposed(
    alloc: Global,
    rows: &[Vec<usize>],
    telling: &mut Telling,
) -> Result<(), NoAnswer> {
    if !is_in_range(rows) {
        return Err(NoAnswer);
    }
    telling.put_debug(&transposed(alloc, rows)?);
    Ok(())
}

/// Tells what a question such as `cycles 3: 0-1 1-1 1-2`, or `reached 2: 0-1 from 0`, asks of the table.
pub fn tell_graph(alloc: Global, row: &Row<'_>, telling: &mut Telling) -> Result<(), NoAnswer> {
    let asked = row.asked(alloc)?;
    let (question, text) = asked.as_str().split_once(' ').ok_or(NoAnswer)?;
    let (steps, starts) = text.split_once("from").unwrap_or((text, ""));
    let rows = table(alloc, steps)?;
    match question {
        "cycles" => put_cycles(alloc, &rows, telling),
        "components" => put_components(alloc, &rows, telling),
        "reached" => put_reached(alloc, &rows, &numbers(alloc, starts)?, telling),
        "transposed" => put_transposed(alloc, &rows, telling),
        _ => Err(NoAnswer),
    }
}
