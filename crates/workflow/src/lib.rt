// Permissions and workflow, the two parts of a secure workflow process (document 004, section 3.2; document 02: permission sheet and work
// plan): read from bytes, tested, and asked.
#![tactic(auto)]

mod permissions;
mod reading;
mod sets;
mod transitions;
mod workflows;

pub use permissions::authorized;
pub use reading::read;
use soda::Transition;

// A workflow: its transitions, the set of its final states, bit s for state s, and how many states and transitions there are. It starts in
// state 0. Transitions past their number are zero. A workflow that is not given is all zero. An array and a number stand side by side here
// because a monitor's words lie in fixed memory in this layout, which the C interface shares.
#[repr(C)]
#[derive(Clone, Copy)]
pub struct Workflow {
    pub transitions: [Transition; 64],
    pub final_states: u16,
    pub states: u8,
    pub count: u8,
}

// What an opening is given besides: for each role the set of the actions that it gives, bit a for action a, and the workflow. Where neither
// is given, all zero.
#[derive(Clone, Copy)]
pub struct SecureWorkflow {
    pub workflow: Workflow,
    pub permissions: [u64; 16],
}
