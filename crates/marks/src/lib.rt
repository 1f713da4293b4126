// Code, emphasis, headings and tables: what stands before and behind the text of their children.

#![tactic(auto)]

pub mod code;
pub mod emphasis;
pub mod heading;
pub mod table;
