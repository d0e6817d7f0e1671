//! The values of an operation's variables (GraphQL, October 2021, section 6.1.2).
use crate::tests::documents::document;
use gq_exec::{CoercionRefusal, Variables, coerce_variables};
use gq_project::Project;
use gq_rules::Valid;
use gq_table::{Leaf, Value};
use serde_json::Value as Json;
use std::alloc::Global;
use std::test::Fail;

/// A project with an operation of two variables.
fn valid(alloc: Global) -> Result<Valid, Fail> {
    let mut project = Project::new(alloc);
    project.put(document(alloc, "s", Some(1), "type Query{f(a:Int b:Int):Int}")?)?;
    project.put(document(
        alloc,
        "q",
        Some(1),
        "query Q($b:Int $a:Int=3){f(a:$a b:$b)}",
    )?)?;
    match Valid::new(alloc, project) {
        Ok(valid) => Ok(valid),
        Err(_) => Err("the project is not valid".into()),
    }
}

/// The variables of that JSON.
fn variables(alloc: Global, json: &str) -> Result<Variables, Fail> {
    let json = Json::from_slice(alloc, json.as_bytes())?;
    Ok(Variables::read(alloc, &json)?)
}

fn number(value: &Value) -> &str {
    match value {
        Value::Leaf(Leaf::Number(number)) => number.as_str(),
        _ => "no number",
    }
}

#[test]
fn variables_have_values(rt: HostRuntime) -> Result<(), Fail> {
    let alloc = rt.alloc();
    let given = variables(alloc, r#"{"b":5}"#)?;
    let coerced = coerce_variables(alloc, &valid(alloc)?, None, &given)?;
    let mut told = String::new(alloc);
    for one in &coerced.entries {
        write!(told, "{}={};", one.name.as_str(), number(&one.value))?;
    }
    assert_eq!(rt; told.as_str(), "a=3;b=5;");
    Ok(())
}

#[test]
fn values_that_do_not_fit_are_refused(rt: HostRuntime) -> Result<(), Fail> {
    let alloc = rt.alloc();
    let given = variables(alloc, r#"{"b":true}"#)?;
    let refused = coerce_variables(alloc, &valid(alloc)?, Some("Q"), &given).err();
    assert_eq!(rt; refused, Some(CoercionRefusal::RequestError));
    Ok(())
}
