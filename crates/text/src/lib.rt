// The text memory: a text is the front of a lent slice.

#![tactic(auto)]

pub mod buffer;
pub mod class;
pub mod text;
pub mod white_space;
