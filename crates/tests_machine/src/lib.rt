//! Tests of the machine's libraries that are no rows of data. There is no code here.
#![tactic(auto)]

#[cfg(test)]
mod tests;
