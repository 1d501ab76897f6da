// Handles of Intel's 343965-001US as definitions, and the theorems on them. The code is in `keywrap`.
#![tactic(auto)]

pub mod theorems;
