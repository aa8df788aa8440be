//! Values of options that name more than one number: the seeds of a sweep, the credits, the memory and the IDs of an
//! endpoint, a granularity, a lane. `None` stands for an option that is not given.
#![tactic(auto)]

mod endpoints;
mod granularities;
mod lanes;
mod links;
mod seeds;

pub use endpoints::{ids_of, size_of};
pub use granularities::granularity_of;
pub use lanes::lane_of;
pub use links::credits_of;
pub use seeds::seeds_of;
