//! What the definition of an explainable log says: small logs of which it is proved whether a history explains them,
//! and which lines of a log may stand in another order.
//!
//! Each function here has no code, and its clause is the fact.
#![tactic(auto)]

pub mod rows;
pub mod swaps;
