// Edition 3 of the choice (document 02, order 12): a file's gain vector, which of two is the greater, and the choice by them.
#![tactic(auto)]

mod edition3;
mod numbers;
mod order;
mod vector;

pub use edition3::choose_vector;
