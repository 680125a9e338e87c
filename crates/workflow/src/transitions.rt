// Transitions: whether one is taken, and whether they are as they must be.
ghost use Rattle.std.specs.Prelude.{◌≡◌, ◌&&◌, ◌≤◌};
ghost use Rattle.soda.specs.Lists.{all};
ghost use Rattle.soda.specs.Workflows.{leaves, deterministic, successor};
ghost use Rattle.workflow.specs.Workflows.{transition_ok, is_idle};

use super::sets::with_one;
use soda::Transition;

// Whether an action takes a transition in a state.
fn leaves_by(transition: Transition, state: u32, action: u8) -> bool
    ensures { result ≡ leaves state action transition }
{
    (u32::from(transition.state) == state) & (transition.action == action)
}

// Where an action leads from a state.
pub(crate) fn successor_in(transitions: &[Transition], state: u32, action: u8) -> Option<u8>
    ensures { result ≡ successor transitions.now state action }
{
    transitions
        .iter()
        .find(|transition| leaves_by(**transition, state, action))
        .map(|transition| transition.next)
}

// Whether a transition's states are declared, so many, and its action is one of 0 to 63.
fn transition_ok(states: u8, transition: Transition) -> bool
    ensures { result ≡ transition_ok states transition }
{
    (transition.state < states) & ((transition.next < states) & (transition.action < 64))
}

// Whether each transition is so, and no two of them have the same state and action: of each state, the actions of the transitions before are
// kept, and one that adds nothing is among them.
pub(crate) fn transitions_ok(states: u8, transitions: &[Transition]) -> bool
    requires { states ≤ 16 }
    ensures { result ≡ (all (transition_ok states) transitions.now && deterministic transitions.now) }
{
    let mut seen = [0u64; 16];
    for &transition in transitions {
        if !transition_ok(states, transition) {
            return false;
        }
        let state = transition.state as usize;
        let actions = with_one(seen[state], transition.action);
        if actions == seen[state] {
            return false;
        }
        seen[state] = actions;
    }
    true
}

// Whether an unused place is all zero.
fn is_idle(transition: Transition) -> bool
    ensures { result ≡ is_idle transition }
{
    (transition.state == 0) & ((transition.action == 0) & (transition.next == 0))
}

// Whether these places are unused. It goes to the end without a branch, so that the bytes of several places are tested at once.
fn are_idle(transitions: &[Transition]) -> bool
    ensures { result ≡ all is_idle transitions.now }
{
    transitions
        .iter()
        .fold(true, |so, &transition| so & is_idle(transition))
}

// Whether these places are unused, sixteen at a time while there are as many: their bytes then stand in three words of 16 bytes.
pub(crate) fn idle_transitions(transitions: &[Transition]) -> bool
    ensures { result ≡ all is_idle transitions.now }
{
    let mut rest = transitions;
    while let Some((sixteen, more)) = rest.split_first_chunk::<16>() {
        if !are_idle(sixteen) {
            return false;
        }
        rest = more;
    }
    are_idle(rest)
}
