// A store whose entries were worked out again, and filing into it from then on: demand 3 holds of it, whatever its entries were before. All of it
// is in specs/resuming and proofs/resuming. There is no code.
