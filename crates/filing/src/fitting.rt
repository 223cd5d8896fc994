// An entry that is worked out from a store that reads as one fits its slot and reads back: all of it is in specs/fitting and proofs/fitting. There is no code.
