// A run of a case's events: each is judged, and its line put.
ghost use Rattle.std.specs.Prelude.{◌≡◌};
ghost use Rattle.monitor.specs.Statuses.{status_of};
ghost use Rattle.casefile.specs.Cases.{event_words};
ghost use Rattle.casefile.specs.Texts.{run_text};
ghost use Rattle.casefile.specs.Private.{Put, CanStep, Stepped, CanRun};

use super::numbers::Number;
use super::pairs::Part;
use super::texts::{put_line, put_taken};
use monitor::Monitor;
use policy::number_of;

// What an event leaves: the monitor, and the place behind its line.
#[derive(Clone, Copy)]
struct Left {
    monitor: Monitor,
    at: usize,
}

// The letter of the monitor's status; a refusal has none.
fn letter_of(monitor: Monitor) -> u8
    ensures { result ≡ (status_of monitor).letter }
{
    match monitor.status() {
        Ok(status) => u8::from(status),
        Err(_) => 0,
    }
}

// One event: its line is its place, its number and the status after it. A refusal keeps the monitor.
fn step(
    monitor: Monitor,
    word: u32,
    place: usize,
    out: &mut [u8],
    at: usize,
    workspace: &mut [u32],
) -> Left
    requires { CanStep monitor workspace.old out.old at }
    ensures { Stepped monitor word place out.old at result.monitor result.at out.new }
{
    let answer = monitor.event(word, workspace);
    let next = answer.unwrap_or(monitor);
    let end = put_line(out, at, place, number_of(answer), letter_of(next));
    Left {
        monitor: next,
        at: end,
    }
}

// The lines of the case's events, then the number of actions taken.
pub(crate) fn run(monitor: Monitor, bytes: &[u8], events: Part, out: &mut [u8]) -> usize
    requires { CanRun monitor bytes.now events out.old }
    ensures { Put out.old 0 (run_text monitor (event_words bytes.now)) result out.new }
{
    let from = usize::from(events.offset);
    let count = usize::from(events.length) / 4;
    let mut workspace = [0u32; 8192];
    let mut current = monitor;
    let mut at = 0;
    for i in 0..count {
        let word = u32::read(bytes, from + i * 4);
        let stepped = step(current, word, i + 1, out, at, &mut workspace);
        current = stepped.monitor;
        at = stepped.at;
    }
    put_taken(out, at, current.instance.taken)
}
