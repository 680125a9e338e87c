// The instance: a policy and a workflow with the actions taken under them, over a configuration.
#![tactic(auto)]

mod enabling;
mod instances;
mod status;
mod steps;

use soda::Action;
pub use status::{Status, UnknownLetter};
use workflow::Workflow;

// An instance: the policy, the taken actions in order of arrival, the workflow, the policy's word count, the number of the actions, the
// closed mark: 0 is open, every other value closed, the letter of its status, and the workflow's present state. Words and places past their
// numbers are zero, and without a workflow it, its state and the configuration's permissions are zero too. Arrays and numbers stand side by
// side, and the mark and the letter are bytes, because a monitor's words lie in fixed memory in this layout, which the C interface shares.
#[repr(C)]
#[derive(Clone, Copy)]
pub struct Instance {
    pub policy: [u32; 31],
    pub actions: [Action; 12],
    pub workflow: Workflow,
    pub words: u8,
    pub taken: u8,
    pub closed: u8,
    pub status: u8,
    pub state: u32,
}
