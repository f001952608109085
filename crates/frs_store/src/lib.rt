//! Sessions on a store: a session recovers the store, answers its clients' commands, and closes; and what is known of it
//! then, with what follows for each crash.
#![tactic(auto)]

mod call;
mod journal;
mod session;
mod session_end;
mod start;
mod start_laws;
mod stop;
mod store;

pub use call::Call;
pub use session::{Closed, Session};
pub use session_end::{continued_log, recovered_commits, runs_in_order};
pub use start::CLIENT;
pub use start_laws::{begun_maps, unopened_end};
pub use stop::{StartFault, Stop, Unopened};
