//! The texts of scripts, traces and refusals over worked lines, the loop over lines, and the monitor of ports over worked
//! packets. More rows of them are in `plain/tests`.
#![tactic(auto)]

#[cfg(test)]
mod lines;
#[cfg(test)]
mod monitor;
#[cfg(test)]
mod refusals;
#[cfg(test)]
mod rows;
#[cfg(test)]
mod scripts;
#[cfg(test)]
mod tlps;
#[cfg(test)]
mod traces;
