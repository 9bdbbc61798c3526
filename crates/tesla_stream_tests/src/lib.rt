//! Tests of what sends and receives a stream, and of the functions below it, against values from outside.
#![tactic(auto)]

#[cfg(test)]
mod tests;
