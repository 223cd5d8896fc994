// The kinds of files and their names (5.2.2), and what a writer answers.
pub mod kind;
pub mod name;
pub mod written;
