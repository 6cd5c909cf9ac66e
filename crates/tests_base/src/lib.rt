//! Tests of files and sinks, in memory and of the system, of names, and of what stops a call.
#![tactic(auto)]

#[cfg(test)]
mod disk;
#[cfg(test)]
mod heap;
#[cfg(test)]
mod name;
#[cfg(test)]
mod place;
#[cfg(test)]
mod put;
#[cfg(test)]
mod shelf;
#[cfg(test)]
mod stream;
