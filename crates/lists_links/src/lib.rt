// Lists, links, images and destinations: what stands before and behind the text of their children.

#![tactic(auto)]

pub mod ctx;
pub mod image;
pub mod link;
pub mod list;
pub mod list_indented;
pub mod list_number;
pub mod title;
pub mod url;
