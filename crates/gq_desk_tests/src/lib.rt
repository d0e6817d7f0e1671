//! Tests of what no program shows of the desk and what stands beside it: lists of events, hands that take no more, growths that are refused,
//! checks that are superseded, and the board between threads.
#![tactic(auto)]

#[cfg(test)]
mod tests;
