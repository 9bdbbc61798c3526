//! Tests of whole runs of the commands over a desk in memory: worked examples, small rooms, calls that move few bytes, each outside
//! call that fails once, and threads side by side.
#![tactic(auto)]

#[cfg(test)]
mod tests;
