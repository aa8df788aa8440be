//! A device that a root complex brings up: worked rows of each TLP and its completions, each byte, and what is malformed;
//! of configuration requests alone; of ports of links, and of the device behind one.
#![tactic(auto)]

#[cfg(test)]
mod configuration;
#[cfg(test)]
mod errors;
#[cfg(test)]
mod linked;
#[cfg(test)]
mod port;
#[cfg(test)]
mod rows;
#[cfg(test)]
mod session;
