// CPUID as definitions, in specs/, and what they agree with, in proofs/; the code is in `cpuid`.
#![tactic(auto)]

// What a leaf holds: the four registers that CPUID answers in.
#[derive(Clone, Copy)]
pub struct Leaf {
    pub eax: u32,
    pub ebx: u32,
    pub ecx: u32,
    pub edx: u32,
}
