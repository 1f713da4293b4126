// Tables: rows, cells and lines.

#![tactic(auto)]

pub mod bars;
pub mod rows;
pub mod table;
