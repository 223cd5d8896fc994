// Two outcomes that one public contract allows are equal: all of it is in proofs/outcomes. There is no code.
