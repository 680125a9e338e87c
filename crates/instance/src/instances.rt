// The instance: as it starts under a policy, an action taken, its status worked out, a close, and its part of number 15.
ghost use Rattle.std.specs.Prelude.{◌≡◌, ◌&&◌, cond, ◌≤◌, leb, ltb, length};
ghost use Rattle.soda.specs.Lists.{all};
ghost use Rattle.instance.specs.Letters.{open_letter};
ghost use Rattle.instance.specs.Instances.{taken_of, is_closed, no_instance, instance_of, with_action, with_status, as_closed, action_ok, is_tidy, is_placed, is_lettered, as_check, check_of};

use super::{Instance, Status};
use configuration::Configuration;
use soda::{Action, all_are};
use workflow::Workflow;

// The mark of an instance that is open, and the one that a close sets; every other value is closed too.
const OPEN: u8 = 0;

const CLOSED: u8 = 1;

// Whether a taken action is by a declared user, and has bits at words that begin unit terms only.
fn action_ok(users: u32, units: u32, a: Action) -> bool
    ensures { result ≡ action_ok users units a }
{
    (a.user < users) & (a.met & units == a.met)
}

impl Instance {
    // All zero.
    pub const BLANK: Self = Instance {
        policy: [0; 31],
        actions: [Action::IDLE; 12],
        workflow: Workflow::BLANK,
        words: 0,
        taken: 0,
        closed: 0,
        status: 0,
        state: 0,
    };

    // An instance under a policy of these words and a workflow, which is in its first state: no action, not closed, and open. All zero for more
    // words than a policy has.
    pub fn under(words: &[u32], workflow: Workflow) -> Self
        ensures { result ≡ cond (leb (length words.now) 31) (instance_of words.now workflow) no_instance }
    {
        if 31 < words.len() {
            return Instance::BLANK;
        }
        let mut policy = [0u32; 31];
        policy[..words.len()].copy_from_slice(words);
        Instance {
            policy,
            actions: [Action::IDLE; 12],
            workflow,
            words: words.len() as u8,
            taken: 0,
            closed: OPEN,
            status: u8::from(Status::Open),
            state: 0,
        }
    }

    // Whether the mark is set.
    pub fn is_closed(self) -> bool
        ensures { result ≡ is_closed self }
    {
        self.closed != OPEN
    }

    // The next place holds the action, there is one more, and the workflow is in this state. The thirteenth alters nothing.
    pub fn with_action(self, action: Action, state: u8) -> Self
        ensures { result ≡ cond (ltb self.taken 12) (with_action self action state) self }
    {
        let at = self.taken;
        if 12 <= at {
            return self;
        }
        let mut next = self;
        next.actions[at as usize] = action;
        next.taken = at + 1;
        next.state = state as u32;
        next
    }

    // The letter is that of an instance which is not closed and whose taken actions satisfy the policy, or do not.
    pub fn with_status(self, satisfied: bool) -> Self
        ensures { result ≡ with_status self (open_letter satisfied) }
    {
        let mut next = self;
        let status = if satisfied {
            Status::Complete
        } else {
            Status::Open
        };
        next.status = u8::from(status);
        next
    }

    // The mark is set, and the letter with it.
    pub fn as_closed(self) -> Self
        ensures { result ≡ as_closed self }
    {
        let mut next = self;
        next.closed = CLOSED;
        next.status = u8::from(Status::Closed);
        next
    }

    // Whether at most twelve actions are taken, each as it must be.
    fn is_taken_ok(self, users: u32, units: u32) -> bool
        ensures { result ≡ (leb self.taken 12 && all (action_ok users units) (taken_of self)) }
    {
        // the array alone is copied: a part of a field of `self` is taken of a copy of all of it
        let actions = self.actions;
        let taken = self.taken as usize;
        taken <= 12
            && actions[..taken]
                .iter()
                .all(|&action| action_ok(users, units, action))
    }

    // Whether every unused policy word and place is zero.
    fn is_tidy(self) -> bool
        requires { (self.words ≤ 31) × (self.taken ≤ 12) }
        ensures { result ≡ is_tidy self }
    {
        // the arrays alone are copied, as above
        let policy = self.policy;
        let actions = self.actions;
        let (_, words) = policy.split_at(self.words as usize);
        let (_, places) = actions.split_at(self.taken as usize);
        all_are(words, 0) && all_are(places, Action::IDLE)
    }

    // Whether the workflow is well formed and in a state that it has; without a workflow, its state and the permissions are zero.
    fn is_placed(self, configuration: Configuration) -> bool
        ensures { result ≡ is_placed configuration self }
    {
        if !self.workflow.is_well_formed() {
            return false;
        }
        if self.workflow.is_given() {
            return self.state < u32::from(self.workflow.states);
        }
        self.state == 0 && configuration.gives_nothing()
    }

    // Whether the letter goes with the mark: closed with the mark alone, complete with an action alone.
    fn is_lettered(self) -> bool
        ensures { result ≡ is_lettered self }
    {
        match Status::try_from(self.status) {
            Ok(Status::Closed) => self.is_closed(),
            Ok(Status::Complete) => !self.is_closed() & (self.taken != 0),
            Ok(Status::Open) => !self.is_closed(),
            Err(_) => false,
        }
    }

    // What a user meets, where the policy would be accepted, the taken actions, the workflow and the letter are as they must be, and what is
    // unused is zero.
    pub fn check(self, configuration: Configuration, user: u8) -> Option<u32>
        ensures { as_check result ≡ check_of configuration self user }
    {
        // the array alone is copied, as above
        let policy = self.policy;
        let words = policy.get(..self.words as usize)?;
        let survey = configuration.survey(words, user)?;
        let formed = self.is_taken_ok(configuration.users, survey.units)
            && self.is_tidy()
            && self.is_placed(configuration)
            && self.is_lettered();
        formed.then_some(survey.met)
    }
}
