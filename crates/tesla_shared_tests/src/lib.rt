//! Tests of what threads share: turns, counts, and a receiver with its workers and its record.
#![tactic(auto)]

#[cfg(test)]
mod tests;
