//! Tests of the real outside, which no contract can speak of.
#![tactic(auto)]

#[cfg(test)]
mod tests;
