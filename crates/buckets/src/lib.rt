// Edition 2's buckets: the free files by vault and gain, linked in one list of numbers that is lent, and the choice among their fronts.
#![tactic(auto)]

mod fronts;
mod links;
mod order;
mod slots;

pub use slots::{Buckets, Shape};
