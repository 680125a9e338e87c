// The judge (document 01): reads a case file from standard input and prints its text. Reading and writing are the two functions of `io` alone,
// which the tests replace where they build the judge as plain Rust.
#![tactic(auto)]

use casefile::LIMIT;

const STDIN_FILENO: i32 = 0;

const STDOUT_FILENO: i32 = 1;

// One byte past the largest case file is enough to see that a file is too long.
fn main() {
    let mut bytes = [0u8; 4097];
    let read = io::read_full(STDIN_FILENO, &mut bytes);
    let mut out = [0u8; LIMIT];
    let Some(length) = casefile::print_case(&bytes[..read], &mut out) else {
        return;
    };
    io::write_all(STDOUT_FILENO, &out[..length]);
}
