//! Tests of the top call over shelves and sinks in memory.
#![tactic(auto)]

#[cfg(test)]
mod runs;
