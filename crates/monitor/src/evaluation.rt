// Actions evaluated through the workspace.
ghost use Rattle.monitor.specs.Evaluations.{Evaluates};

use policy::Refusal;
use soda::Action;

// What is found of actions: whether they satisfy the policy, and whether they are possible.
#[derive(Clone, Copy, Debug, PartialEq, Eq)]
pub struct Evaluation {
    pub satisfied: bool,
    pub possible: bool,
}

// Fills the workspace for the actions, at most twelve, and reads both verdicts at the mask of all of them.
pub fn evaluate(
    words: &[u32],
    actions: &[Action],
    workspace: &mut [u32],
) -> Result<Evaluation, Refusal>
    ensures { Evaluates words.now actions.now workspace.old result workspace.new }
{
    if workspace.len() < 8192 {
        return Err(Refusal::Workspace);
    }
    if 12 < actions.len() {
        return Err(Refusal::Full);
    }
    workspace::fill(words, actions, workspace);
    let all = (1usize << actions.len()) - 1;
    Ok(Evaluation {
        satisfied: workspace[all] & 1 == 1,
        possible: workspace[4096 + all] & 1 == 1,
    })
}
