// The sheet as it comes in: its fields, UTF-8, questions 1 to 9, and what a no is.

#![tactic(auto)]

pub mod fields;
pub mod questions;
pub mod refusal;
pub mod sound;
pub mod tag;
pub mod utf8;
