// What the software promises, over the bytes that it is lent and the contracts of its public functions: all of it is in specs/ and proofs/, and
// proofs/Demands has the theorems. `outcomes`: two outcomes that one public contract allows are equal. There is no code.
#![tactic(auto)]

pub mod outcomes;
