// Keyrings as definitions, in specs/, and the theorems on them, in proofs/; the code is in `keyring`.
#![tactic(auto)]
