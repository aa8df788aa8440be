//! A device behind its link: worked rows of initialization, enumeration and accesses, each byte.

mod rows;
mod session;
