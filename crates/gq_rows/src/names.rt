//! Lists of names, items under names, and how names may be spelled.
use crate::no_answer::NoAnswer;
use crate::row::Row;
use crate::telling::Telling;
use gq_names::{ByName, NameList, repeated_names};
use gq_renamed::{is_fragment_name, is_name};
use std::alloc::Global;

/// Puts `n0` to `n999` into a list, and answers how many of them are the first of their text.
fn put_thousand(alloc: Global, names: &mut NameList) -> Result<usize, NoAnswer> {
    let mut firsts: usize = 0;
    for number in 0..1_000 {
        let name = format!(in alloc; "n{number}")?;
        if names.push(name.as_str())? {
            firsts = firsts.saturating_add(1);
        }
    }
    Ok(firsts)
}

/// The name at the place that a word says.
fn name_at<'n>(names: &'n NameList, word: &str) -> Result<&'n str, NoAnswer> {
    let place: usize = word.parse()?;
    if place >= names.len() {
        return Err(NoAnswer);
    }
    Ok(names.get(place))
}

/// Calls a function of a list, asked as `place hero`, and tells what it answers. Behind a name that is `put`, the places of
/// `a` and of `i` are told.
fn tell_call(
    alloc: Global,
    names: &mut NameList,
    asked: &str,
    telling: &mut Telling,
) -> Result<(), NoAnswer> {
    let (function, word) = asked.split_once(' ').unwrap_or((asked, ""));
    match function {
        "push" => telling.put_debug(&names.push(word)?),
        "put" => {
            telling.put_debug(&names.push(word)?);
            telling.put(" ");
            telling.put_debug(&names.place("a"));
            telling.put(" ");
            telling.put_debug(&names.place("i"));
        }
        "put_thousand" => telling.put_number(put_thousand(alloc, names)?),
        "len" => telling.put_number(names.len()),
        "place" => telling.put_debug(&names.place(word)),
        "contains" => telling.put_debug(&names.contains(word)),
        "get" => telling.put(name_at(names, word)?),
        _ => return Err(NoAnswer),
    }
    Ok(())
}

/// Tells what functions of one list answer, called one after another.
pub fn tell_names(alloc: Global, row: &Row<'_>, telling: &mut Telling) -> Result<(), NoAnswer> {
    let asked = row.asked(alloc)?;
    let mut names = NameList::new(alloc);
    for call in asked.as_str().split(", ") {
        telling.put(if telling.is_empty() { "" } else { ", " });
        tell_call(alloc, &mut names, call, telling)?;
    }
    Ok(())
}

/// Tells the places of those names that stand at an earlier place too.
pub fn tell_repeated(alloc: Global, row: &Row<'_>, telling: &mut Telling) -> Result<(), NoAnswer> {
    let asked = row.asked(alloc)?;
    let names: Vec<&str> = asked.as_str().split_whitespace().collect(alloc)?;
    telling.put_debug(&repeated_names(alloc, names.as_slice())?);
    Ok(())
}

/// Tells the items under names, where `a=1` puts one and `a` asks for those that are there by then.
pub fn tell_items(alloc: Global, row: &Row<'_>, telling: &mut Telling) -> Result<(), NoAnswer> {
    let asked = row.asked(alloc)?;
    let mut items = ByName::new(alloc);
    for word in asked.as_str().split_whitespace() {
        match word.split_once('=') {
            Some((name, number)) => {
                let number: usize = number.parse()?;
                items.put(name, number)?;
            }
            None => {
                telling.put(if telling.is_empty() { "" } else { " " });
                telling.put_debug(&items.get(word));
            }
        }
    }
    Ok(())
}

/// Tells whether a text is the name of a fragment, or of something else, or none.
pub fn tell_spelling(alloc: Global, row: &Row<'_>, telling: &mut Telling) -> Result<(), NoAnswer> {
    let text = row.asked(alloc)?;
    telling.put(if is_fragment_name(text.as_str()) {
        "fragment name"
    } else if is_name(text.as_str()) {
        "name"
    } else {
        "none"
    });
    Ok(())
}
