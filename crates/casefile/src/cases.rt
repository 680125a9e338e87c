// A case: when it is malformed, and what it holds.
ghost use Rattle.std.specs.Prelude.{◌≡◌, ◌&&◌, cond, leb, Some, None, length};
ghost use Rattle.monitor.specs.Monitors.{opening, as_opened};
ghost use Rattle.casefile.specs.Cases.{pairs_ok, case_ok, opening_between, opening_of};
ghost use Rattle.casefile.specs.Private.{case_of, are_joined, are_measured, Holds};

use super::numbers::fill;
use super::pairs::Part;
use monitor::Monitor;
use policy::Refusal;

// A case file may have so many bytes.
const LARGEST: usize = 4096;

// Where a case's parts are. Permissions and workflow stand behind the others, in a case of five pairs.
#[derive(Clone, Copy, Debug, PartialEq, Eq)]
pub(crate) struct Case {
    pub policy: Part,
    pub grants: Part,
    pub events: Part,
    pub behind: Option<(Part, Part)>,
}

impl Case {
    // What the pairs say. They are three, and the first part begins at 12, or five, and it begins at 20.
    fn of_pairs(bytes: &[u8]) -> Option<Case>
        ensures { result ≡ cond (leb 12 (length bytes.now) && pairs_ok bytes.now) (Some (case_of bytes.now)) None }
    {
        if bytes.len() < 12 {
            return None;
        }
        let policy = Part::at(bytes, 0);
        let behind = match policy.offset {
            12 => None,
            20 if 20 <= bytes.len() => Some((Part::at(bytes, 3), Part::at(bytes, 4))),
            _ => return None,
        };
        Some(Case {
            policy,
            grants: Part::at(bytes, 1),
            events: Part::at(bytes, 2),
            behind,
        })
    }

    // Whether each part begins where the last ended, and the last one ends a file of this length.
    fn are_joined(self, length: usize) -> bool
        ensures { result ≡ are_joined self length }
    {
        self.grants.follows(self.policy)
            && self.events.follows(self.grants)
            && match self.behind {
                None => length == self.events.end(),
                Some((permissions, workflow)) => {
                    permissions.follows(self.events)
                        && workflow.follows(permissions)
                        && length == workflow.end()
                }
            }
    }

    // Whether each part has a length that it may have.
    fn are_measured(self) -> bool
        ensures { result ≡ are_measured self }
    {
        self.policy.length % 4 == 0
            && self.events.length % 4 == 0
            && self.events.length <= 1024
            && 2 <= self.grants.length
            && self.grants.length % 2 == 0
    }

    // Reads a case; nothing of a malformed one.
    pub fn read(bytes: &[u8]) -> Option<Case>
        ensures { result ≡ cond (case_ok bytes.now) (Some (case_of bytes.now)) None }
    {
        if LARGEST < bytes.len() {
            return None;
        }
        let case = Case::of_pairs(bytes)?;
        (case.are_joined(bytes.len()) && case.are_measured()).then_some(case)
    }

    // Opens the monitor that the case describes, with these permissions and this workflow.
    fn open_with(
        self,
        bytes: &[u8],
        permissions: &[u8],
        workflow: &[u8],
    ) -> Result<Monitor, Refusal>
        requires { Holds bytes.now self }
        ensures { as_opened result ≡ opening (opening_between bytes.now permissions.now workflow.now) }
    {
        // arrays as long as a case can fill, since nothing allocates
        let mut words = [0u32; 1024];
        let words = &mut words[..usize::from(self.policy.length / 4)];
        fill(bytes, usize::from(self.policy.offset), words);
        let grants = usize::from(self.grants.offset);
        let mut rows = [0u16; 2048];
        let rows = &mut rows[..usize::from((self.grants.length - 2) / 2)];
        fill(bytes, grants + 2, rows);
        Monitor::open(
            bytes[grants],
            bytes[grants + 1],
            words,
            rows,
            permissions,
            workflow,
        )
    }

    // Opens the monitor that the case describes.
    pub fn open(self, bytes: &[u8]) -> Result<Monitor, Refusal>
        requires { Holds bytes.now self }
        ensures { as_opened result ≡ opening (opening_of bytes.now) }
    {
        match self.behind {
            None => self.open_with(bytes, &[], &[]),
            Some((permissions, workflow)) => {
                self.open_with(bytes, permissions.within(bytes), workflow.within(bytes))
            }
        }
    }
}
