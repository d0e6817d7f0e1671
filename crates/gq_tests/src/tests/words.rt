//! The words of faults.
use gq_lex::{BadKind, LexFault};
use std::test::Fail;

#[test]
fn faults_are_told_in_words(rt: HostRuntime) -> Result<(), Fail> {
    let bad = LexFault::Bad {
        place: 7,
        kind: BadKind::Char,
    };
    let limit = LexFault::Limit { place: 9 };
    let none = LexFault::NoMemory;
    let told = format!(in rt.alloc(); "{bad}; {limit}; {none}")?;
    let want = "byte 7: no token can be read here; byte 9: one token too many; out of memory";
    assert_eq!(rt; told.as_str(), want);
    Ok(())
}
