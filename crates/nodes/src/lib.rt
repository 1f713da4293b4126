// What the serializer asks of the nodes of a stored sheet, and the texts below a node.

#![tactic(auto)]

pub mod nodes;
pub mod skip_md;
pub mod white_space;
