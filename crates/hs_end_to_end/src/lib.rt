//! Tests of the top call over files and sinks that never fail.
#![tactic(auto)]

#[cfg(test)]
mod sure;
