// One event on a monitor: the refusals in order, and what it leaves.
ghost use Rattle.std.specs.Prelude.{◌≡◌, ◌<◌, Some};
ghost use Rattle.policy.specs.Answers.{answer_number};
ghost use Rattle.monitor.specs.Events.{Acts, as_event, left_after, outcome};
ghost use Rattle.monitor.specs.Private.{Admitted, Sound, LongEnough, Entered, actor, Meets, Noting, own_outcome, monitor_outcome, close_outcome};

use super::Monitor;
use super::evaluation::evaluate;
use super::events::{Event, is_short, read_event};
use instance::{Instance, Status};
use policy::Refusal;
use soda::Action;

// The user who acts; 0 if the event is no action.
fn actor_of(event: Option<Event>) -> u8
    ensures { result ≡ actor (as_event event) }
{
    match event {
        Some(Event::Action { user, action: _ }) => user,
        _ => 0,
    }
}

// A close: the letter and the workflow's state decide.
fn close(instance: Instance) -> Result<Instance, Refusal>
    ensures { record { code = answer_number result; instance = left_after instance result } ≡ close_outcome instance }
{
    if instance.status != u8::from(Status::Complete) || !instance.is_final() {
        return Err(Refusal::NotSatisfied);
    }
    Ok(instance.as_closed())
}

impl Monitor {
    // An action with this number by a declared user, who meets these unit terms: the instance that it leaves. The workspace speaks of the
    // actions with it.
    fn act(self, user: u8, action: u8, met: u32, workspace: &mut [u32]) -> Result<Instance, Refusal>
        requires { Admitted self.configuration self.instance workspace.old × (user < self.configuration.users) × Meets self.configuration self.instance user met }
        ensures { record { code = answer_number result; instance = left_after self.instance result; workspace = workspace.new } ≡ own_outcome self.configuration self.instance (Acts user action) workspace.old }
    {
        let state = self.instance.step(self.configuration, user, action)?;
        if 12 <= self.instance.taken {
            return Err(Refusal::Full);
        }
        let tried = self.instance.with_action(Action::new(user, met), state);
        let words = &tried.policy[..tried.words as usize];
        let evaluation = evaluate(words, &tried.actions[..tried.taken as usize], workspace)?;
        if !evaluation.possible {
            return Err(Refusal::NotPossible);
        }
        Ok(tried.with_status(evaluation.satisfied))
    }

    // An event to which none of 12, 15, 10 and 7 applies; its user, if it is an action, meets these unit terms, and the workspace is long
    // enough. It is performed in place, since a monitor that is answered is copied once more; a refusal leaves it.
    fn perform(&mut self, event: Event, met: u32, workspace: &mut [u32]) -> Result<(), Refusal>
        requires { Sound self.old.configuration self.old.instance × LongEnough (as_event (Some event)) workspace.old × Entered self.old.configuration (as_event (Some event)) × Noting self.old (as_event (Some event)) met }
        ensures { record { code = answer_number result; monitor = self.new; workspace = workspace.new } ≡ monitor_outcome self.old (as_event (Some event)) workspace.old }
    {
        match event {
            Event::Action { user, action } => {
                self.instance = self.act(user, action, met, workspace)?;
            }
            Event::Grant { user, role } => {
                self.configuration = self.configuration.with_grant(user, role);
            }
            Event::Revoke { user, role } => {
                self.configuration = self.configuration.without_grant(user, role);
            }
            Event::Close => self.instance = close(self.instance)?,
        }
        Ok(())
    }

    // One event: the monitor that it leaves. The workspace speaks of the actions that were evaluated.
    pub fn event(self, word: u32, workspace: &mut [u32]) -> Result<Monitor, Refusal>
        ensures { record { code = answer_number result; monitor = left_after self result; workspace = workspace.new } ≡ outcome self word workspace.old }
    {
        if is_short(word, workspace.len()) {
            return Err(Refusal::Workspace);
        }
        let event = read_event(self.configuration.users, self.configuration.roles, word);
        let met = self.check(actor_of(event))?;
        if self.instance.is_closed() {
            return Err(Refusal::Closed);
        }
        let event = event.ok_or(Refusal::Malformed)?;
        let mut next = self;
        next.perform(event, met, workspace)?;
        Ok(next)
    }
}
