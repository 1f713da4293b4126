// Normalized text and its escapes: text_utils.rs.

#![tactic(auto)]

pub mod fast_copy;
pub mod layout;
pub mod line_start;
pub mod normalize;
pub mod normalize_own;
pub mod text_utils;
