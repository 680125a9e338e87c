// The monitor: opening one, and whether one is well formed.
ghost use Rattle.std.specs.Prelude.{◌≡◌};
ghost use Rattle.monitor.specs.Monitors.{given, opening, as_opened};
ghost use Rattle.monitor.specs.Private.{Checked};

use super::Monitor;
use configuration::Configuration;
use instance::Instance;
use policy::Refusal;

impl Monitor {
    // All zero: what a caller that keeps a monitor is left by a refused opening (document 01: the blank sheet).
    pub const BLANK: Self = Monitor {
        configuration: Configuration::BLANK,
        instance: Instance::BLANK,
    };

    // Opens a monitor under a policy, with permissions and a workflow if they are given.
    pub fn open(
        users: u8,
        roles: u8,
        words: &[u32],
        rows: &[u16],
        permissions: &[u8],
        workflow: &[u8],
    ) -> Result<Monitor, Refusal>
        ensures { as_opened result ≡ opening (given users roles words.now rows.now permissions.now workflow.now) }
    {
        policy::read(users, roles, words)?;
        let configuration = Configuration::open(users, roles, rows)?;
        let Some(secure) = workflow::read(roles, permissions, workflow) else {
            return Err(Refusal::Workflow);
        };
        Ok(Monitor {
            configuration: configuration.with_permissions(secure.permissions),
            instance: Instance::under(words, secure.workflow),
        })
    }

    // What a user meets, if the monitor is well formed.
    pub(crate) fn check(&self, user: u8) -> Result<u32, Refusal>
        ensures { Checked self.now user result }
    {
        if !self.configuration.is_well_formed() {
            return Err(Refusal::Monitor);
        }
        self.instance
            .check(self.configuration, user)
            .ok_or(Refusal::Monitor)
    }
}
