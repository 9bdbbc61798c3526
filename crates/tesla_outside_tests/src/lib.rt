//! Tests of the running system: its clocks, its gates, the waits of its links and its sinks that fail.
#![tactic(auto)]

#[cfg(test)]
mod tests;
