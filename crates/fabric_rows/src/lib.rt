//! Worked rows of fabrics and halls, for tests. Rows of [`memory`] and [`halls`] go so also where one allocation is
//! refused: a call that there was no memory for is made again, and what was refused is told. The program of `fabric_tests`
//! prints them.
//!
//! The functions say no more than that seats stay the hall's: the tests look, and a proof that rests on the exact calls
//! would be dear.
#![tactic(auto)]

pub mod drive;
pub mod halls;
pub mod memory;
pub mod scripts;
pub mod seats;
