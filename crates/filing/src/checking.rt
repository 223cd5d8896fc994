// The checks of filing behind 44, in the paper's order, and what filing answers.
pub mod answer;
pub mod check;
