// The tree of a sheet in node memory, and access to it.

#![tactic(auto)]

pub mod attributes;
pub mod field;
pub mod memory;
pub mod names;
pub mod nodes;
pub mod store;
