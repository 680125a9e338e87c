// Who may act: each user's action tried.
ghost use Rattle.std.specs.Prelude.{◌≡◌};
ghost use Rattle.monitor.specs.Enabled.{enabled_of, as_enabled};
ghost use Rattle.monitor.specs.Private.{Admitted, each_tried};

use super::Monitor;
use policy::Refusal;

impl Monitor {
    // Which candidates' actions with this number are possible with the taken ones: bit u for user u. The workspace speaks of those with the
    // last candidate's; nobody, and it is as it was, where there is none or twelve are taken.
    fn try_all(self, action: u8, workspace: &mut [u32]) -> u16
        requires { Admitted self.configuration self.instance workspace.old }
        ensures { record { mask = result; workspace = workspace.new } ≡ each_tried self.configuration self.instance action workspace.old }
    {
        let instance = self.instance;
        let candidates = instance.candidates(self.configuration, action);
        let behind = candidates.behind as usize;
        let words = &instance.policy[..instance.words as usize];
        let met = units::met_each(words, &self.configuration.user_roles[..behind]);
        let taken = &instance.actions[..instance.taken as usize];
        workspace::try_users(words, taken, &met[..behind], workspace) & candidates.users
    }

    // The users whose action with this number would be accepted. The workspace speaks of the trial of the last user for whom permissions
    // and workflow have no refusal; without such a user, on a closed monitor and on one with twelve actions it is left as it was.
    pub fn enabled(self, action: u8, workspace: &mut [u32]) -> Result<u16, Refusal>
        ensures { record { answer = as_enabled result; workspace = workspace.new } ≡ enabled_of self action workspace.old }
    {
        if workspace.len() < 8192 {
            return Err(Refusal::Workspace);
        }
        self.check(0)?;
        if self.instance.is_closed() {
            return Ok(0);
        }
        Ok(self.try_all(action, workspace))
    }
}
