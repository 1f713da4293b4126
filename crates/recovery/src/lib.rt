// No code: this crate holds laws about the definitions of `spec`.

#![tactic(auto)]
