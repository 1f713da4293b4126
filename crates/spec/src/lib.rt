// The types that the definitions and the code share: options, and element names.

#![tactic(auto)]

pub mod ctx;
pub mod element;
