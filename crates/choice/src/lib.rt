// The choice: which file is to move next, by the sizes, the sides, the locks and the gains as they stand.
// Edition 1 is that of a pass; `heavy` has that of the balancing.
#![tactic(auto)]

mod edition1;
mod heavy;
mod window;

pub use edition1::{Best, choose};
pub use heavy::{greatest_on, heavy_side};
pub use window::{Standing, Window, size_after};
