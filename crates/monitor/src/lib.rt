// The monitor of a quote by value: opening one, one event, the status, and who may act.
#![tactic(auto)]

mod evaluation;
mod events;
mod monitors;
mod statuses;
mod steps;
mod trials;

use configuration::Configuration;
pub use evaluation::{Evaluation, evaluate};
pub use events::{ACTION, CLOSE, Event, GRANT, REVOKE};
use instance::Instance;

// A monitor (document 01: sheet). It has no padding: each of its bytes is a field's.
#[repr(C)]
#[derive(Clone, Copy)]
pub struct Monitor {
    pub configuration: Configuration,
    pub instance: Instance,
}
