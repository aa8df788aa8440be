//! Links and lanes. Lanes driven from end to end: worked rows, past several wraps of the sequence numbers; credits that
//! come back; memory that doesn't grow. The switch: worked routes, and a packet that is forwarded from lane to lane. More
//! rows of them are in `plain/tests`.
#![tactic(auto)]

#[cfg(test)]
mod calls;
#[cfg(test)]
mod credits;
#[cfg(test)]
mod link;
#[cfg(test)]
mod memory;
#[cfg(test)]
mod switches;
#[cfg(test)]
mod windows;
