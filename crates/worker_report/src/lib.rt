//! What a run of worker threads is to do, what it did, and why there is none: the plan and its fabric, the
//! report and its check, and the halts.
#![tactic(auto)]

mod halt;
pub mod laws;
mod plan;
mod report;

pub use halt::RunHalt;
pub use plan::{RunPlan, fabric_of};
pub use report::{Gathered, Report, report_of};
