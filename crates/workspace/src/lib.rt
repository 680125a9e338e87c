// The workspace: for each set of actions, which terms of the policy it satisfies and which are possible.
// A set of actions is a mask over their places. Its row packs both columns into one number (`rows`).
#![tactic(auto)]

ghost use Rattle.std.specs.Prelude.{◌≡◌, ◌≤◌, ltb, length};
ghost use Rattle.soda.specs.Lists.{all};
ghost use Rattle.workspace.specs.Workspace.{fill_of};
ghost use Rattle.workspace.specs.Trials.{trials_of};
ghost use Rattle.workspace.specs.Private.{FillsTrying};

mod entry;
mod masks;
mod parts;
mod row;
mod sizes;
mod tables;
mod taken;
mod trials;
mod twins;

use sizes::fill_by;
use soda::Action;
use taken::Taken;

// Whether the users of the actions are below 16.
fn users_ok(actions: &[Action]) -> bool
    ensures { result ≡ all (λ a. ltb a.user 16) actions.now }
{
    actions.iter().all(|a| a.user < 16)
}

// Fills the workspace for the actions, and says which of the users who meet these unit terms can act in place of the last one: bit u for
// user u. It changes nothing and says none where the words are not a well-formed term of 1 to 31 words, there are more than twelve
// actions, a user is not below 16, or the workspace is too short.
fn fill_trying(words: &[u32], actions: &[Action], met: &[u32], workspace: &mut [u32]) -> u16
    requires { length met.now ≤ 16 }
    ensures { FillsTrying words.now actions.now met.now workspace.old result workspace.new }
{
    if actions.len() > 12 {
        return 0;
    }
    if !users_ok(actions) {
        return 0;
    }
    if workspace.len() < 8192 {
        return 0;
    }
    let Some(shape) = shape::shape_of(words) else {
        return 0;
    };
    let taken = Taken { actions, met };
    fill_by(shape, &taken, workspace)
}

// Fills the workspace for the actions under the policy of these words. It changes nothing where the words are not a well-formed term of
// 1 to 31 words, there are more than twelve actions, a user is not below 16, or the workspace is too short.
pub fn fill(words: &[u32], actions: &[Action], workspace: &mut [u32])
    ensures { workspace.new ≡ fill_of words.now actions.now (length actions.now) workspace.old }
{
    fill_trying(words, actions, &[], workspace);
}

// Which of the users who meet these unit terms, 1 to 16 of them, can act after the actions: bit u for user u. The workspace is filled for
// those actions with the last user's. None, and it changes nothing, where that action would be the thirteenth or `fill` changes nothing.
pub fn try_users(words: &[u32], actions: &[Action], met: &[u32], workspace: &mut [u32]) -> u16
    ensures { record { mask = result; workspace = workspace.new } ≡ trials_of words.now actions.now (length actions.now) met.now workspace.old }
{
    let taken = actions.len();
    if taken > 11 {
        return 0;
    }
    if met.is_empty() {
        return 0;
    }
    if met.len() > 16 {
        return 0;
    }
    let last = met.len() - 1;
    let mut tried = [Action::IDLE; 12];
    tried[..taken].copy_from_slice(actions);
    tried[taken] = Action::new(last as u8, met[last]);
    fill_trying(words, &tried[..taken + 1], met, workspace)
}
