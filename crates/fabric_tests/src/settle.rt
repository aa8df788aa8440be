//! The rounds of `settle` beside the hops that were left: at most as many, one more, and the last, which moves nothing.

mod counts;
mod rows;

pub(crate) use rows::LEAST_CREDITS;
