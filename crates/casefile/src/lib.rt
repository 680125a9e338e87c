// A case in bytes: reading it, running it, and the text that the judge prints.
#![tactic(auto)]

ghost use Rattle.std.specs.Prelude.{◌≡◌, length};
ghost use Rattle.casefile.specs.Texts.{as_printed, printed, output};

mod cases;
mod numbers;
mod pairs;
mod runs;
mod texts;

use cases::Case;
use policy::Refusal;
use runs::run;
use texts::put_refused;

// The length of the longest text: 256 lines of at most 9 bytes, and one more.
pub const LIMIT: usize = 2313;

// Runs a case: the text that the judge prints stands at the start of the output, and its length is answered. Nothing is written to an output
// that cannot hold the longest text.
pub fn print_case(bytes: &[u8], out: &mut [u8]) -> Option<usize>
    ensures { (as_printed result ≡ printed bytes.now (length out.old)) × (out.new ≡ output bytes.now out.old) }
{
    if out.len() < LIMIT {
        return None;
    }
    let Some(case) = Case::read(bytes) else {
        return Some(put_refused(out, 0, Refusal::Case));
    };
    match case.open(bytes) {
        Ok(monitor) => Some(run(monitor, bytes, case.events, out)),
        Err(refusal) => Some(put_refused(out, 0, refusal)),
    }
}
