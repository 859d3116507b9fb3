// The published steps on a lent area: one step, and the stop service.
#![tactic(auto)]

mod service;
mod step;

pub use refusals::Refusal;
pub use service::{advance, stop};
pub use step::{step_count, take_step};
