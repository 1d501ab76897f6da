// Definitions and laws on bytes and words that every crate above shares. There is no code here.
#![tactic(auto)]
