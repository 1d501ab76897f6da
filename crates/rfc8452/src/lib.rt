// RFC 8452 as definitions, in its words, and the theorems on them. The code is in `polyval`.
#![tactic(auto)]

pub mod theorems;
