// What a whole store answers: whether it reads is judged first. And the figure.
pub mod figure;
pub mod whole;
