//! The library for C: what `c/pciex.h` declares under `pciex_raw_`. Each function says what the crate
//! below it says of the same call, in the header's codes, and asks of its caller what the header asks.
#![tactic(auto)]

mod answers;
mod codes;
mod crcs;
mod device;
mod endpoint;
mod fabric;
mod link_codes;
mod linked;
mod monitor;
