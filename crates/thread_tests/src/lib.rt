//! Halls and runs: calls succeed. A write and a read of it in a hall, which one seat or all close; a meeting that is `Busy`
//! with the memory; a part that is still held; a work seat that carries what was seen. Worker threads count each addition
//! once, and end for what the core refuses; a run of no additions writes its report.
//!
//! Rows of halls of which an allocation is refused are in `fabric_rows`. All other rows of halls and runs, which no clause
//! says either, are in `plain/tests`.
#![tactic(auto)]

#[cfg(test)]
mod carrying;
#[cfg(test)]
mod held;
#[cfg(test)]
mod rows;
#[cfg(test)]
mod runs;
