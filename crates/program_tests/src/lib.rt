//! A run of each subcommand, and of each engine that the program doesn't call: each public function of theirs is called once
//! in a test that is proved. `scripts/called.sh` lists those that no test calls.
#![tactic(auto)]

#[cfg(test)]
mod engines;
#[cfg(test)]
mod logs;
#[cfg(test)]
mod pictures;
#[cfg(test)]
mod ranges;
#[cfg(test)]
mod rows;
#[cfg(test)]
mod runs;
#[cfg(test)]
mod words;
