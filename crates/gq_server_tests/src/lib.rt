//! Tests of what no program shows of the server: growths that are refused, devices and folders that fail, and runs with workers of which
//! one is held.
#![tactic(auto)]

#[cfg(test)]
mod tests;
