// The edges that documents 01 and 02 name, run through the calls: each line is what was asked and the number that it was answered.
#![tactic(auto)]

ghost use Rattle.std.specs.Prelude.{◌≡◌, length};

use monitor::Monitor;
use policy::{Refusal, number_of};

// One everyone, and operators over it.
const ALL: u32 = 0x0100_0000;

const NOT: u32 = 0x0400_0000;

const ANY: u32 = 0x0500_0000;

const BOTH: u32 = 0x0700_0000;

const TOGETHER: u32 = 0x0800_0000;

const USER_0: u32 = 0x0300_0001;

// A word of no kind, a role and a set that two users and two roles do not have, and the empty set.
const NO_KIND: u32 = 0x0a00_0000;

const ROLE_2: u32 = 0x0200_0002;

const USER_2: u32 = 0x0300_0004;

const EMPTY: u32 = 0x0300_0000;

// Any number of actions by users who hold a role.
const PLUS: [u32; 2] = [ANY, ALL];

// Fifteen boths and sixteen everyones: the longest policy.
fn longest() -> [u32; 31] {
    let mut words = [ALL; 31];
    for i in 0..15 {
        words[2 * i] = BOTH;
    }
    words
}

// One word more.
fn too_long() -> [u32; 32] {
    let mut words = [ALL; 32];
    words[..31].copy_from_slice(&longest());
    words[29] = NOT;
    words
}

// The counts of a multiset of user 0 and user 1.
fn counts_of(user_0: u8, user_1: u8) -> [u8; 16] {
    let mut counts = [0; 16];
    counts[0] = user_0;
    counts[1] = user_1;
    counts
}

// Writes what was asked, and behind it some text and a number: a line, but for its end. `io` needs no handle, and a write that fails ends nothing.
fn write(asked: &str, text: &[u8], number: u64) {
    io::write_all(1, asked.as_bytes());
    io::write_all(1, text);
    io::print_decimal(1, number);
}

fn end_line() {
    io::write_all(1, b"\n");
}

// A line: what was asked, and the word that was found.
fn say_word(asked: &str, word: u32) {
    write(asked, b": ", u64::from(word));
    end_line();
}

// The number of an answer, and the place of a policy's fault.
fn say_number<T: Copy>(asked: &str, answer: Result<T, Refusal>) {
    write(asked, b": ", u64::from(number_of(answer)));
    if let Err(refusal) = answer {
        if let Some(place) = refusal.place() {
            write("", b" at ", u64::from(place));
        }
    }
    end_line();
}

// A letter, or a refusal's number.
fn say_letter(asked: &str, answer: Result<u8, Refusal>) {
    match answer {
        Ok(letter) => {
            io::write_all(1, asked.as_bytes());
            io::write_all(1, &[b':', b' ', letter, b'\n']);
        }
        Err(_) => say_number(asked, answer),
    }
}

// A status by its letter.
fn say_status(asked: &str, monitor: Monitor) {
    say_letter(asked, monitor.status().map(|status| u8::from(status)));
}

// A verdict by its letter.
fn say_verdict(asked: &str, answer: Result<bool, Refusal>) {
    say_letter(asked, answer.map(|yes| if yes { b'y' } else { b'n' }));
}

// The users whose action with this number would be accepted, by their mask.
fn say_enabled(asked: &str, monitor: Monitor, action: u8) {
    let mut workspace = [0u32; 8192];
    let answer = monitor.enabled(action, &mut workspace);
    match answer {
        Ok(mask) => {
            write(asked, b": mask ", u64::from(mask));
            end_line();
        }
        Err(_) => say_number(asked, answer),
    }
}

// An opening with neither permissions nor workflow.
fn open_bare(users: u8, roles: u8, words: &[u32], rows: &[u16]) -> Result<Monitor, Refusal> {
    Monitor::open(users, roles, words, rows, &[], &[])
}

fn bare(users: u8, roles: u8, words: &[u32], rows: &[u16]) -> Monitor {
    open_bare(users, roles, words, rows).unwrap_or(Monitor::BLANK)
}

// Opens a monitor so, and says the number.
fn open(asked: &str, users: u8, roles: u8, words: &[u32], rows: &[u16]) {
    say_number(asked, open_bare(users, roles, words, rows))
}

fn words() {
    open("31 words", 1, 1, &longest(), &[1]);
    open("32 words", 1, 1, &too_long(), &[1])
}

fn users() {
    let rows = [1; 16];
    open("16 users", 16, 1, &PLUS, &rows);
    say_enabled("16 users, who may act", bare(16, 1, &PLUS, &rows), 0);
    open("17 users", 17, 1, &PLUS, &[1; 17]);
    let roles = [0xffff];
    open("16 roles", 1, 16, &PLUS, &roles);
    open("17 roles", 1, 17, &PLUS, &roles)
}

// One event; says its number. A refusal keeps the monitor.
fn event(asked: &str, monitor: Monitor, word: u32) -> Monitor {
    let mut workspace = [0u32; 8192];
    let answer = monitor.event(word, &mut workspace);
    say_number(asked, answer);
    answer.unwrap_or(monitor)
}

// A close without a workspace.
fn close(monitor: Monitor) -> Result<Monitor, Refusal> {
    monitor.event(0x0400_0000, &mut [])
}

// One action by user 0.
fn act(monitor: Monitor) -> Monitor {
    event("action", monitor, 0x0100_0000)
}

// Thirteen actions by one user: twelve are taken, the next finds the monitor full.
fn actions() {
    let mut full = bare(1, 1, &PLUS, &[1]);
    for _ in 0..13 {
        full = act(full);
    }
    say_word("taken", u32::from(full.instance.taken));
    say_status("status", full);
    say_enabled("who may act", full, 0);
    let closed = close(full).unwrap_or(full);
    say_enabled("closed, who may act", closed, 0);
    say_enabled("blank, who may act", bare(0, 1, &PLUS, &[1]), 0)
}

fn short_event(asked: &str, monitor: Monitor, word: u32) {
    let mut short = [0u32; 8191];
    say_number(asked, monitor.event(word, &mut short))
}

// A workspace that is one word short, for what asks for one and for what does not.
fn short_workspace() {
    let opened = bare(1, 1, &PLUS, &[1]);
    let counts = counts_of(1, 0);
    let mut short = [0u32; 8191];
    short_event("8191 words, action", opened, 0x0100_0000);
    short_event("8191 words, unknown kind", opened, 0x0500_0000);
    short_event("8191 words, close", opened, 0x0400_0000);
    short_event("8191 words, close out of layout", opened, 0x0400_0001);
    say_number("8191 words, who may act", opened.enabled(0, &mut short));
    let verdict = multiset::satisfies(1, 1, &PLUS, &[1], counts, &mut short);
    say_verdict("8191 words, multiset", verdict)
}

fn workspaces() {
    let opened = bare(1, 1, &PLUS, &[1]);
    let mut workspace = [0u32; 8192];
    event("8192 words, action", opened, 0x0100_0000);
    event("8192 words, unknown kind", opened, 0x0500_0000);
    say_enabled("8192 words, who may act", opened, 0);
    let verdict = multiset::satisfies(1, 1, &PLUS, &[1], counts_of(1, 0), &mut workspace);
    say_verdict("8192 words, multiset", verdict)
}

// A monitor with another letter and another mark: says its status, and the number of a close without a workspace.
fn lettered(asked: &str, monitor: Monitor, letter: u8, mark: u8) {
    let mut other = monitor;
    other.instance.status = letter;
    other.instance.closed = mark;
    say_status(asked, other);
    say_number("close", close(other))
}

// The letter that is kept, and those that go with the mark and the actions or do not.
fn letters() {
    let opened = bare(1, 1, &PLUS, &[1]);
    say_status("opened, status", opened);
    lettered("no action, o", opened, b'o', 0);
    lettered("no action, c", opened, b'c', 0);
    lettered("no action, closed, d", opened, b'd', 1);
    let acted = act(opened);
    say_status("acted, status", acted);
    lettered("one action, o", acted, b'o', 0);
    lettered("one action, c", acted, b'c', 0);
    lettered("one action, d", acted, b'd', 0);
    lettered("one action, no letter", acted, 0, 0);
    lettered("one action, closed, c", acted, b'c', 1);
    lettered("one action, mark of 2, d", acted, b'd', 2);
    say_status("closed, status", close(acted).unwrap_or(acted));
    say_status("blank, status", Monitor::BLANK)
}

// Opens under words that are refused, with two users and two roles.
fn refuse(asked: &str, words: &[u32]) {
    open(asked, 2, 2, words, &[1, 2])
}

// Places of 1 and 2.
fn bad_words() {
    refuse("no word", &[]);
    refuse("no kind, first", &[NO_KIND, ALL]);
    refuse("undeclared role, middle", &[TOGETHER, ROLE_2, ALL]);
    refuse("undeclared user, last", &[TOGETHER, ALL, USER_2]);
    refuse("two bad words", &[TOGETHER, EMPTY, ROLE_2, ALL]);
    let mut words = longest();
    words[30] = EMPTY;
    refuse("31 words, empty set last", &words)
}

// Places of 3.
fn left_over() {
    refuse("left over, second", &[ALL, ALL]);
    refuse("left over, middle", &[TOGETHER, ALL, ALL, NOT, ALL]);
    refuse("left over, last", &[NOT, ALL, ALL]);
    refuse("one word runs out", &[NOT]);
    refuse("three words run out", &[TOGETHER, ALL, NOT]);
    let mut words = longest();
    words[28] = NOT;
    refuse("31 words, left over", &words);
    let mut more = longest();
    more[30] = NOT;
    refuse("31 words run out", &more)
}

// Places of 4, and 3 before 4.
fn no_unit_terms() {
    let right = [TOGETHER, ALL, NOT, ANY, ALL];
    let nested = [TOGETHER, NOT, NOT, ANY, ALL, ANY, ANY, ALL];
    refuse("plus over together, first", &[ANY, TOGETHER, ALL, ALL]);
    refuse("not over plus, in the right side", &right);
    refuse("not over not over plus, then plus over plus", &nested);
    refuse("not over plus, a word left over", &[NOT, ANY, ALL, ALL]);
    let mut words = longest();
    words[28] = NOT;
    words[29] = ANY;
    refuse("31 words, not over plus last", &words)
}

// The other numbers have no place.
fn no_place() {
    let bad = [NO_KIND];
    let rows = [1];
    open("no user, bad word", 0, 1, &bad, &rows);
    open("no row", 1, 1, &PLUS, &[]);
    let counts = [1u8; 16];
    let mut workspace = [0u32; 8192];
    let verdict = multiset::satisfies(1, 1, &bad, &rows, counts, &mut workspace);
    say_verdict("multiset, bad word", verdict);
    let verdict = multiset::satisfies(1, 1, &PLUS, &rows, counts, &mut workspace);
    say_verdict("multiset, undeclared user", verdict);
    let mut out = [0u32; 1];
    let answer = normal::normal_form(1, 1, &bad, &mut out);
    say_number("normal form, bad word", answer);
    let answer = normal::normal_form(1, 1, &PLUS, &mut out);
    say_number("normal form, short output", answer)
}

// P6 and P7 as document 02's E3 has them: nobody holds a role at first, and user 1 gets and loses role 2.
fn settled() {
    let opened = bare(3, 3, &[TOGETHER, ROLE_2, NOT, ROLE_2], &[0; 3]);
    let granted = event("P6, grant", opened, 0x0200_0102);
    let acted = event("P6, action", granted, 0x0100_0100);
    let left = event("P6, withdrawal", acted, 0x0300_0102);
    let last = event("P6, action without a role", left, 0x0100_0100);
    event("P6, close", last, 0x0400_0000);
    let first = event("P7, action without a role", granted, 0x0100_0000);
    let gone = event("P7, withdrawal", first, 0x0300_0102);
    event("P7, action without a role", gone, 0x0100_0100);
}

// Not user 0: neither user may act without a role.
fn unassigned() {
    let opened = bare(2, 1, &[NOT, USER_0], &[1, 1]);
    say_enabled("not user 0, who may act", opened, 0);
    let first = event("user 0 leaves", opened, 0x0300_0000);
    event("user 0 without a role", first, 0x0100_0000);
    let both = event("user 1 leaves", first, 0x0300_0100);
    event("user 1 without a role", both, 0x0100_0100);
    say_enabled("both have left, who may act", both, 0)
}

// Not user 0: what user 1 did before leaving stays.
fn acted_before() {
    let opened = bare(2, 1, &[NOT, USER_0], &[1, 1]);
    let acted = event("user 1 before leaving", opened, 0x0100_0100);
    let left = event("user 1 leaves then", acted, 0x0300_0100);
    event("close", left, 0x0400_0000);
}

// Not user 0: a multiset of user 1, with a role and without.
fn multisets() {
    let words = [NOT, USER_0];
    let counts = counts_of(0, 1);
    let mut workspace = [0u32; 8192];
    let verdict = multiset::satisfies(2, 1, &words, &[0, 1], counts, &mut workspace);
    say_verdict("multiset of user 1 with a role", verdict);
    let verdict = multiset::satisfies(2, 1, &words, &[1, 0], counts, &mut workspace);
    say_verdict("multiset of user 1 without a role", verdict)
}

// Role 0 together with role 1, for a multiset of user 0 twice and user 1 once: the words of single actions tell whose they are.
fn numbering() {
    let words = [TOGETHER, 0x0200_0000, 0x0200_0001];
    let mut workspace = [0u32; 8192];
    let verdict = multiset::satisfies(2, 2, &words, &[1, 2], counts_of(2, 1), &mut workspace);
    say_verdict("user 0 twice, user 1 once", verdict);
    say_word("action 0 alone", u32::from(workspace[1]));
    say_word("action 1 alone", u32::from(workspace[2]));
    say_word("action 2 alone", u32::from(workspace[4]))
}

// Not twice, for a user with a role and one without.
fn not_twice() {
    let opened = bare(2, 1, &[NOT, NOT, ALL], &[1, 0]);
    event("not not everyone, with a role", opened, 0x0100_0000);
    event("not not everyone, without", opened, 0x0100_0100);
}

// Opens a monitor for one user with these permissions and this workflow, and says the number.
fn open_with(asked: &str, permissions: &[u8], workflow: &[u8]) -> Monitor {
    let opened = Monitor::open(1, 1, &PLUS, &[1], permissions, workflow);
    say_number(asked, opened);
    opened.unwrap_or(Monitor::BLANK)
}

// The same where the user's role gives every action.
fn open_ordered(asked: &str, workflow: &[u8]) -> Monitor {
    open_with(asked, &[0xff; 8], workflow)
}

fn states() {
    let opened = open_ordered("16 states", &[16, 1, 0, 128, 0, 1, 15]);
    let last = event("to state 15", opened, 0x0100_0001);
    event("no transition", last, 0x0100_0001);
    event("close in state 15", last, 0x0400_0000);
    open_ordered("17 states", &[17, 1, 0, 128, 0, 1, 15]);
    open_ordered("no state", &[0; 4]);
    open_ordered("1 state, no transition", &[1, 0, 0, 0]);
}

// Two states and this many transitions; there are bytes for 65, all actions in state 0 and one in state 1.
fn all_actions(count: u8) -> [u8; 199]
    ensures { length result ≡ 199 }
{
    let mut bytes = [0; 199];
    bytes[..4].copy_from_slice(&[2, count, 1, 0]);
    for action in 0..64u8 {
        bytes[5 + 3 * usize::from(action)] = action;
    }
    bytes[196] = 1;
    bytes
}

fn transitions() {
    let bytes = all_actions(64);
    let fewer = &bytes[..196];
    open_ordered("65 transitions", &all_actions(65));
    open_ordered("64 transitions", fewer);
    open_ordered("64 transitions, 3 bytes more", &bytes);
}

fn numbers() {
    let opened = open_ordered("action 63", &[1, 1, 1, 0, 0, 63, 0]);
    event("action 63 taken", opened, 0x0100_003f);
    event("action 64 tried", opened, 0x0100_0040);
    say_enabled("action 63, who may act", opened, 63);
    say_enabled("action 64, who may act", opened, 64);
    open_ordered("action 64", &[1, 1, 1, 0, 0, 64, 0]);
}

// One of the two alone, and permissions of seven bytes.
fn lengths() {
    let permissions = [1; 8];
    let workflow = [1, 0, 1, 0];
    open_with("permissions alone", &permissions, &[]);
    open_with("workflow alone", &[], &workflow);
    open_with("both", &permissions, &workflow);
    open_with("seven bytes of permissions", &permissions[..7], &workflow);
    open_with("workflow of three bytes", &permissions, &workflow[..3]);
}

// Reads a text under 15 users and 15 roles, with room for 31 words, and says the number.
fn read(asked: &str, text: &[u8]) {
    let mut words = [0u32; 31];
    say_number(asked, parser::read_text(15, 15, text, &mut words))
}

// Numbers up to 15, declared or not, and users that ascend or do not.
fn numerals() {
    read("text of role 14", b"policy: r14");
    read("text of role 15", b"policy: r15");
    read("text of role 16", b"policy: r16");
    read("text of role 07", b"policy: r07");
    read("text of users 0 and 14", b"policy: {0,14}");
    read("text of users 0 and 15", b"policy: {0,15}");
    read("text of users 14 and 0", b"policy: {14,0}");
    read("text of no user", b"policy: {}")
}

// The opening bytes, and what stands behind a term.
fn openings() {
    read("seven bytes", b"policy:");
    read("eight bytes", b"policy: ");
    read("all", b"policy: all");
    read("all and a space", b"policy: all ");
    read("not over with", b"policy: (all or not (all with all))")
}

// 31 words have a text of 176 bytes here.
fn texts() {
    let mut text = [0u8; 176];
    let mut short_text = [0u8; 175];
    let written = printer::write_text(1, 1, &longest(), &mut short_text);
    say_number("31 words into 175 bytes", written);
    let written = printer::write_text(1, 1, &longest(), &mut text);
    say_number("31 words into 176 bytes", written);
    let written = printer::write_text(1, 1, &too_long(), &mut short_text);
    say_number("32 words", written);
    let mut words = [0u32; 31];
    let mut short_words = [0u32; 30];
    let written = parser::read_text(1, 1, &text, &mut short_words);
    say_number("176 bytes into 30 words", written);
    let written = parser::read_text(1, 1, &text, &mut words);
    say_number("176 bytes into 31 words", written)
}

fn main() {
    words();
    users();
    actions();
    short_workspace();
    workspaces();
    letters();
    bad_words();
    left_over();
    no_unit_terms();
    no_place();
    settled();
    unassigned();
    acted_before();
    multisets();
    numbering();
    not_twice();
    states();
    transitions();
    numbers();
    lengths();
    numerals();
    openings();
    texts()
}
