// Facts about lists, numbers and bytes that hold for any project. No code: definitions in specs/, laws in proofs/.
#![tactic(auto)]
