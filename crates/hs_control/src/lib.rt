//! Values with control values, and what operations give where values may be or hold these. Trees and emitted modules run on them.
#![tactic(auto)]

pub mod law;
