// The entries of the numbers that the last file names, worked out afresh.
pub mod named;
pub mod renew;
pub mod turn;
