//! Laws of logs in pieces: which devices they are right of, and of which sizes.
//!
//! Each function here has no code, and its clause is the law.
#![tactic(auto)]

pub mod devices;
pub mod sizes;
