// Lists of calls: a host serves them all, in order, and what is promised of every such list.
#![tactic(auto)]

mod calls;
pub mod cases;
pub mod laws;
mod serving;

pub use calls::{Call, Outcome};
pub use host::{Answer, Host, Looked, PipePlan, Refusal, Standing};
pub use serving::{NoRoom, serve, serve_into};
