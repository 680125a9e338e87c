// What permissions and workflow say to an action and to a close.
ghost use Rattle.std.specs.Prelude.{◌≡◌};
ghost use Rattle.instance.specs.Steps.{is_authorized, leads_to, step_of, as_step, is_final};

use super::Instance;
use configuration::Configuration;
use policy::Refusal;

impl Instance {
    // Whether a role that the user holds gives the action; without a workflow every action is permitted.
    fn authorizes(self, configuration: Configuration, user: u8, action: u8) -> bool
        ensures { result ≡ is_authorized configuration self user action }
    {
        !self.workflow.is_given()
            || workflow::authorized(configuration.permissions, configuration.held(user), action)
    }

    // Where the action leads from the present state; without a workflow it stays in state 0.
    pub(crate) fn successor(self, action: u8) -> Option<u8>
        ensures { result ≡ leads_to self action }
    {
        if !self.workflow.is_given() {
            return Some(0);
        }
        self.workflow.successor(self.state, action)
    }

    // The state that an action by this user leads to, or refusal 16 or 17.
    pub fn step(self, configuration: Configuration, user: u8, action: u8) -> Result<u8, Refusal>
        ensures { as_step result ≡ step_of configuration self user action }
    {
        if !self.authorizes(configuration, user, action) {
            return Err(Refusal::NotAuthorized);
        }
        self.successor(action).ok_or(Refusal::NoTransition)
    }

    // Whether the workflow may end in its present state; without one nothing is asked.
    pub fn is_final(self) -> bool
        ensures { result ≡ is_final self }
    {
        !self.workflow.is_given() || self.workflow.is_final(self.state)
    }
}
