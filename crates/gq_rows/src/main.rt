//! Judges rows: each file that the command line names holds texts and what is wanted of them. It prints each row that
//! is answered otherwise, and then, for each file, how many rows it has.
#![tactic(auto)]

mod arguments;
mod checks;
mod documents;
mod faults;
mod graphs;
mod indexes;
mod keys;
mod literals;
mod messages;
mod names;
mod no_answer;
mod pictures;
mod printed;
mod projects;
mod questions;
mod row;
mod schemas;
mod spreads;
mod syntax;
mod telling;
mod texts;
mod types;

use no_answer::NoAnswer;
use questions::Question;
use row::{Row, read_rows};
use std::process::ExitCode;
use std::thread::Threads;
use std::{env, fs};
use telling::Telling;

/// Answers a row, prints it if the answer is not what is wanted, and says whether it is.
fn judge_row<R: Threads + Sync>(
    threads: &R,
    rt: &HostRuntime,
    name: &str,
    question: Question,
    row: &Row<'_>,
) -> Result<bool, NoAnswer> {
    let mut telling = Telling::new(rt.alloc());
    if question
        .answer(threads, rt.alloc(), row, &mut telling)
        .is_err()
    {
        telling.put("no answer");
    }
    let wanted = row.wanted(rt.alloc())?;
    let told = telling.into_text()?;
    let is_wanted = told.as_str() == wanted.as_str();
    if !is_wanted {
        println!(rt; "{name}:{}: told {told:?}, wanted {wanted:?}", row.line)?;
    }
    Ok(is_wanted)
}

/// Judges the rows of a file, prints how many there are, and answers how many are not answered as wanted.
fn judge_file<R: Threads + Sync>(
    threads: &R,
    rt: &HostRuntime,
    name: &str,
) -> Result<usize, NoAnswer> {
    let question = Question::of_file(name).ok_or(NoAnswer)?;
    let text = fs::read_to_string(rt, name)?;
    let rows = read_rows(rt.alloc(), text.as_str())?;
    let mut wrong: usize = 0;
    for row in &rows {
        if !judge_row(threads, rt, name, question, row)? {
            wrong = wrong.saturating_add(1);
        }
    }
    println!(rt; "{name}: {} rows", rows.len())?;
    Ok(wrong)
}

/// Judges all files, and answers how many rows are not answered as wanted.
fn judge_files<R: Threads + Sync>(threads: &R, rt: &HostRuntime) -> Result<usize, NoAnswer> {
    let words: Vec<String> = env::args(rt)?.collect(rt.alloc())?;
    let mut wrong: usize = 0;
    for name in words.iter().skip(1) {
        wrong = wrong.saturating_add(judge_file(threads, rt, name.as_str())?);
    }
    Ok(wrong)
}

fn main(rt: HostRuntime) -> ExitCode {
    match judge_files(&rt, &rt) {
        Ok(0) => ExitCode::SUCCESS,
        _ => ExitCode::FAILURE,
    }
}
