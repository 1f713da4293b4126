// The call that writes a sheet.

#![tactic(auto)]

pub mod call;
