// The workflow: the one that is not given, whether one is well formed, its final states, and where an action leads.
ghost use Rattle.std.specs.Prelude.{◌≡◌};
ghost use Rattle.soda.specs.Workflows.{successor};
ghost use Rattle.workflow.specs.Workflows.{transitions_of, is_given, is_final_state, workflow_ok};

use super::Workflow;
use super::sets::has;
use super::transitions::{idle_transitions, successor_in, transitions_ok};
use soda::Transition;

impl Workflow {
    // Not given: all zero.
    pub const BLANK: Self = Workflow {
        transitions: [Transition::IDLE; 64],
        final_states: 0,
        states: 0,
        count: 0,
    };

    // Whether it is given: it has a state.
    pub fn is_given(self) -> bool
        ensures { result ≡ is_given self }
    {
        self.states != 0
    }

    // Where an action leads from a state.
    pub fn successor(self, state: u32, action: u8) -> Option<u8>
        ensures { result ≡ successor (transitions_of self) state action }
    {
        let count = usize::from(self.count).min(64);
        successor_in(&self.transitions[..count], state, action)
    }

    // Whether a state is final.
    #[tactic(auto, using(crate::proofs::Digits::past_is_clear))]
    pub fn is_final(self, state: u32) -> bool
        ensures { result ≡ is_final_state self state }
    {
        (state < 16) && has(u64::from(self.final_states), state as u8)
    }

    // Whether it has at most 16 states and 64 transitions, names declared states and actions up to 63 only, no two transitions have the same
    // state and action, and what is unused is zero; so one without a state is all zero.
    #[tactic(auto, unfolding(crate::specs::Workflows::workflow_ok))]
    pub fn is_well_formed(self) -> bool
        ensures { result ≡ workflow_ok self }
    {
        if (16 < self.states)
            || (64 < self.count)
            || (1 << self.states <= u32::from(self.final_states))
        {
            return false;
        }
        let (used, unused) = self.transitions.split_at(usize::from(self.count));
        transitions_ok(self.states, used) && idle_transitions(unused)
    }
}
