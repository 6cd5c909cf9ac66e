//! Want of memory.

/// There was no memory for what was asked. It is the library's own error, so `?` gives it.
pub use std::alloc::AllocError as NoMemory;
