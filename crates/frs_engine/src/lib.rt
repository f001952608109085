//! The top calls of the store: they run scripts against a disk and look at one, and carry its promise.
#![tactic(auto)]

mod ending;
mod finding;
mod outcome;
mod plain_job;
mod plan_script;
mod report;
mod run;
mod run_laws;
mod status;

pub use frs_text::{PlainPlan, RunPlan};
pub use frs_types::{NoTurn, Turn};
pub use plain_job::{Left, frs_plain};
pub use run::{Ended, frs_run};
pub use run_laws::maps_after_runs;
pub use status::Status;

#[cfg(test)]
mod crash_tests;
#[cfg(test)]
mod image_reader;
#[cfg(test)]
mod plain_job_tests;
#[cfg(test)]
mod reopen_tests;
#[cfg(test)]
mod script_tests;
#[cfg(test)]
mod tests;
