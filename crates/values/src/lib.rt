// Single values: sets as bits of a number, modes, counts, homes, the load of a message. Most crates stand on these.
#![tactic(auto)]

pub mod bits;
pub mod count;
pub mod homes;
pub mod message;
pub mod mode;
