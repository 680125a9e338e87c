// Permissions and workflow as an opening is given them, in bytes.
ghost use Rattle.std.specs.Prelude.{◌≡◌, ◌++◌, ◌+◌, ◌-◌, ◌*◌, ◌≤◌, length, replicate, cond, Some, None};
ghost use Rattle.soda.specs.Workflows.{no_transition};
ghost use Rattle.workflow.specs.Workflows.{transition_at, transitions_in, workflow_of};
ghost use Rattle.workflow.specs.Reading.{workflow_length_ok, as_read, secure_of};

use super::permissions::permission_rows;
use super::{SecureWorkflow, Workflow};
use soda::Transition;

// The transition at place k, three bytes.
fn transition_at(bytes: &[u8], k: usize) -> Transition
    requires { k + 3 ≤ length bytes.now }
    ensures { result ≡ transition_at bytes.now k }
{
    Transition {
        state: bytes[k],
        action: bytes[k + 1],
        next: bytes[k + 2],
    }
}

// So many transitions, which begin at place 4, and zeros behind them.
fn transitions_of(bytes: &[u8], count: usize) -> [Transition; 64]
    requires { (count ≤ 64) × (4 + 3 * count ≤ length bytes.now) }
    ensures { result ≡ transitions_in bytes.now count ++ replicate (64 - count) no_transition }
{
    let mut transitions = [Transition::IDLE; 64];
    for i in 0..count {
        transitions[i] = transition_at(bytes, 4 + 3 * i);
    }
    transitions
}

// The workflow that bytes say: four, and behind them three a transition, of at most 64. None where there are more or fewer.
#[tactic(auto, unfolding(crate::specs::Workflows::workflow_of))]
fn workflow_of(bytes: &[u8]) -> Option<Workflow>
    ensures { result ≡ cond (workflow_length_ok bytes.now) (Some (workflow_of bytes.now)) None }
{
    if bytes.len() < 4 {
        return None;
    }
    let count = bytes[1];
    let transition_count = usize::from(count);
    if (64 < count) || (bytes.len() != 4 + 3 * transition_count) {
        return None;
    }
    Some(Workflow {
        transitions: transitions_of(bytes, transition_count),
        final_states: u16::from_le_bytes([bytes[2], bytes[3]]),
        states: bytes[0],
        count,
    })
}

// Reads permissions, for so many roles, and a workflow, where both are empty, and where both are in form.
#[tactic(auto, unfolding(crate::specs::Workflows::no_workflow, crate::specs::Reading::says_workflow, crate::specs::Reading::not_given, crate::specs::Reading::secure_of))]
pub fn read(roles: u8, permissions: &[u8], workflow: &[u8]) -> Option<SecureWorkflow>
    ensures { as_read result ≡ secure_of roles permissions.now workflow.now }
{
    if permissions.is_empty() & workflow.is_empty() {
        return Some(SecureWorkflow {
            workflow: Workflow::BLANK,
            permissions: [0; 16],
        });
    }
    let permissions = permission_rows(roles, permissions)?;
    let workflow = workflow_of(workflow)?;
    if !(workflow.is_given() & workflow.is_well_formed()) {
        return None;
    }
    Some(SecureWorkflow {
        workflow,
        permissions,
    })
}
