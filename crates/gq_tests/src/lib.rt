//! Tests of what no program shows of the libraries below the server: growths that are refused, devices that fail, and public
//! calls that no program reaches.
#![tactic(auto)]

#[cfg(test)]
mod tests;
