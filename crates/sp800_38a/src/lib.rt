// NIST SP 800-38A's Counter mode as definitions and theorems: no code.
#![tactic(auto)]

pub mod theorems;
