// The element writers that reach no other writer, but for tables.

#![tactic(auto)]

pub mod code;
pub mod code_language;
pub mod item_steps;
pub mod link;
pub mod list_nodes;
pub mod pre;
pub mod steps;
