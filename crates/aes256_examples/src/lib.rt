// AES-256 at three blocks, computed by FIPS 197's definitions. There is no code here.
#![tactic(auto)]
