// What a desk program links: the monitor's calls, exported for C, over a monitor where the program keeps it. A slice passes as its
// pointer, then its length.
#![tactic(auto)]

ghost use Rattle.std.specs.Prelude.{◌≡◌, length};
ghost use Rattle.policy.specs.Answers.{answer_code, answer_number};
ghost use Rattle.normal.specs.NormalForms.{normal_code, normal_answer, normal_out};
ghost use Rattle.text.specs.Reading.{read_code, read_answer, read_out, as_converted};
ghost use Rattle.text.specs.Writing.{write_code, write_answer, write_out};
ghost use Rattle.monitor.specs.Monitors.{given, bare};
ghost use Rattle.monitor.specs.Events.{outcome};
ghost use Rattle.monitor.specs.Statuses.{status_of};
ghost use Rattle.multiset.specs.MultisetTest.{test_of, test_workspace};
ghost use Rattle.embed.specs.Bytes.{status_byte, verdict_byte};
ghost use Rattle.embed.specs.Lent.{place_left, opening_lent, enabled_lent, conversion_code, length_left, LengthLent};
ghost use Rattle.embed.specs.Versions.{version, layout};

use monitor::Monitor;
use policy::{ACCEPTED, Refusal, number_of};

// The version, 0.8.0: major, minor and patch number, a byte each.
const VERSION: u32 = 0x000800;

// The number of the layout of what is lent: another one whenever a field of it comes, goes, moves or means something else.
const LAYOUT: u32 = 4;

// The number of an answer; the place of a policy's fault goes to the lent byte, which any other answer leaves as it was.
fn lend<T: Copy>(answer: Result<T, Refusal>, place: &mut u8) -> u8
    ensures number { result ≡ answer_number answer }
    ensures place_after { place.new ≡ place_left (answer_code answer) place.old }
{
    if let Err(refusal) = answer {
        if let Some(at) = refusal.place() {
            *place = at;
        }
    }
    number_of(answer)
}

// Opens a monitor where the caller keeps it, with permissions and a workflow if they are not empty; a refusal leaves the blank one there. A
// policy's fault, 1 to 4, has its place written.
#[unsafe(no_mangle)]
pub extern "C" fn oskhrein_open(
    monitor: &mut Monitor,
    users: u8,
    roles: u8,
    words: &[u32],
    rows: &[u16],
    permissions: &[u8],
    workflow: &[u8],
    place: &mut u8,
) -> u8
    ensures { record { code = result; place = place.new; monitor = monitor.new } ≡ opening_lent (given users roles words.now rows.now permissions.now workflow.now) place.old }
{
    // each arm writes where the monitor is kept: one that is chosen first is copied once more
    match Monitor::open(users, roles, words, rows, permissions, workflow) {
        Ok(opened) => {
            *monitor = opened;
            ACCEPTED
        }
        Err(refusal) => {
            *monitor = Monitor::BLANK;
            lend::<()>(Err(refusal), place)
        }
    }
}

// One event (document 01: the thin call on a lent sheet): alters the monitor where the caller keeps it, with the answers of the call by
// value.
#[unsafe(no_mangle)]
pub extern "C" fn oskhrein_event(monitor: &mut Monitor, word: u32, workspace: &mut [u32]) -> u8
    ensures { record { code = result; monitor = monitor.new; workspace = workspace.new } ≡ outcome monitor.old word workspace.old }
{
    match monitor.event(word, workspace) {
        Ok(next) => {
            *monitor = next;
            ACCEPTED
        }
        Err(refusal) => refusal.number(),
    }
}

// The status of a monitor, which stays as it is.
#[unsafe(no_mangle)]
pub extern "C" fn oskhrein_status(monitor: &Monitor) -> u8
    ensures { result ≡ status_byte (status_of monitor.now) }
{
    match monitor.status() {
        Ok(status) => u8::from(status),
        Err(refusal) => refusal.number(),
    }
}

// The users whose action with this number would be accepted, bit u for user u. The monitor stays as it is, and after a refusal the users
// too.
#[unsafe(no_mangle)]
pub extern "C" fn oskhrein_enabled(
    monitor: &Monitor,
    action: u8,
    workspace: &mut [u32],
    users: &mut u16,
) -> u8
    ensures { record { code = result; users = users.new; workspace = workspace.new } ≡ enabled_lent monitor.now action users.old workspace.old }
{
    match monitor.enabled(action, workspace) {
        Ok(mask) => {
            *users = mask;
            ACCEPTED
        }
        Err(refusal) => refusal.number(),
    }
}

// Whether the multiset of users, each as often as its count says, satisfies the policy.
#[unsafe(no_mangle)]
pub extern "C" fn oskhrein_satisfies(
    users: u8,
    roles: u8,
    words: &[u32],
    rows: &[u16],
    counts: &[u8; 16],
    workspace: &mut [u32],
    place: &mut u8,
) -> u8
    ensures { (result ≡ verdict_byte (test_of (bare users roles words.now rows.now) counts.now (length workspace.old))) × (place.new ≡ place_left (test_of (bare users roles words.now rows.now) counts.now (length workspace.old)).code place.old) × (workspace.new ≡ test_workspace (bare users roles words.now rows.now) counts.now workspace.old) }
{
    match multiset::satisfies(users, roles, words, rows, *counts, workspace) {
        Ok(true) => b'y',
        Ok(false) => b'n',
        refused => lend(refused, place),
    }
}

// The normal form of a policy, at the start of an output that the caller keeps.
#[unsafe(no_mangle)]
pub extern "C" fn oskhrein_normal_form(
    users: u8,
    roles: u8,
    words: &[u32],
    out: &mut [u32],
    place: &mut u8,
) -> u8
    ensures { (result ≡ normal_code users roles words.now (length out.old)) × (place.new ≡ place_left (normal_answer users roles words.now (length out.old)) place.old) × (out.new ≡ normal_out users roles words.now out.old) }
{
    let answer = normal::normal_form(users, roles, words, out);
    lend(answer, place)
}

// A conversion's number. How many words or bytes were written, or the place of a policy's fault, goes to what is lent for it.
fn lend_length(converted: Result<usize, Refusal>, written: &mut usize, place: &mut u8) -> u8
    ensures { LengthLent (as_converted converted) written.old place.old result written.new place.new }
{
    if let Ok(length) = converted {
        *written = length;
    }
    lend(converted, place)
}

// A policy's text read: its words, at the start of an output that the caller keeps, and how many they are.
#[unsafe(no_mangle)]
pub extern "C" fn oskhrein_read_text(
    users: u8,
    roles: u8,
    text: &[u8],
    out: &mut [u32],
    written: &mut usize,
    place: &mut u8,
) -> u8
    ensures { (result ≡ read_code users roles text.now (length out.old)) × (written.new ≡ length_left (read_answer users roles text.now (length out.old)) written.old) × (place.new ≡ place_left (conversion_code (read_answer users roles text.now (length out.old))) place.old) × (out.new ≡ read_out users roles text.now out.old) }
{
    let converted = parser::read_text(users, roles, text, out);
    lend_length(converted, written, place)
}

// A policy's text, at the start of an output that the caller keeps, and how many bytes it has.
#[unsafe(no_mangle)]
pub extern "C" fn oskhrein_write_text(
    users: u8,
    roles: u8,
    words: &[u32],
    out: &mut [u8],
    written: &mut usize,
    place: &mut u8,
) -> u8
    ensures { (result ≡ write_code users roles words.now (length out.old)) × (written.new ≡ length_left (write_answer users roles words.now (length out.old)) written.old) × (place.new ≡ place_left (conversion_code (write_answer users roles words.now (length out.old))) place.old) × (out.new ≡ write_out users roles words.now out.old) }
{
    let converted = printer::write_text(users, roles, words, out);
    lend_length(converted, written, place)
}

// The version of the library.
#[unsafe(no_mangle)]
pub extern "C" fn oskhrein_version() -> u32
    ensures { result ≡ version }
{
    VERSION
}

// The number of the layout of what is lent. Whoever stores a monitor keeps it beside the bytes.
#[unsafe(no_mangle)]
pub extern "C" fn oskhrein_layout() -> u32
    ensures { result ≡ layout }
{
    LAYOUT
}
