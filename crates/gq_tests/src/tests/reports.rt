//! The report of a project by threads.
use crate::tests::documents::document;
use gq_by_file::validate_by_threads;
use gq_project::Project;
use gq_text::Span;
use std::alloc::Global;
use std::test::Fail;

#[test]
fn a_project_is_reported_by_threads(rt: HostRuntime) -> Result<(), Fail> {
    let alloc = rt.alloc();
    let mut project = Project::new(alloc);
    project.put(document(alloc, "s", Some(1), "type Query{x:Int}")?)?;
    project.put(document(alloc, "q", Some(1), "{y ...F} fragment G on Query{x}")?)?;
    let report = validate_by_threads(&rt, alloc, &project)?;
    let mut told = String::new(alloc);
    for one in &report.found {
        let Span { start, end } = one.span;
        write!(
            told,
            "{} {} {start}-{end};",
            one.key.as_str(),
            one.code.as_str()
        )?;
    }
    let want = "q V4 1-2;q V14 6-7;q V13 18-19;";
    assert_eq!(rt; told.as_str(), want);
    Ok(())
}
