//! What every part of the toolchain stands on: places in a text, the rules and their texts, names,
//! and what a program asks of the outside, which is files to read and sinks to write to.
#![tactic(auto)]

pub mod disk;
pub mod heap;
pub mod memory;
pub mod name;
pub mod outside;
pub mod parts;
pub mod place;
pub mod put;
pub mod repeats;
pub mod rule;
pub mod shelf;
pub mod spelling;
pub mod stream;
