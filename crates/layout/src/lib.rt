// The layout of a stored job, which its reader and its writer share: document 01, "The stored job".
#![tactic(auto)]

mod block;
mod kinds;

pub use block::{check_of, value_in, word_at};
pub use kinds::{
    INPUT_BYTES, Kind, block_count, bounds_at, header_values, held_in, input_bytes, kind_of,
    pins_at, values_in,
};
