// Sets of users: `{`, ascending numbers parted by commas, `}`.
ghost use Rattle.parser.specs.Private.{set_here, LeafRead};

use super::numerals::read_numeral;
use super::tokens::Token;
use policy::Kind;

// The set that the text begins with.
pub(crate) fn read_set(text: &[u8]) -> Option<Token<u32>>
    ensures { LeafRead (set_here text.now) text.now result }
{
    if !text.starts_with(b"{") {
        return None;
    }
    // how many bytes are read, which is part of the answer, so the bytes are counted rather than cut off
    let mut at = 1;
    let mut low: u8 = 0;
    let mut mask: u16 = 0;
    loop {
        let number = read_numeral(&text[at..])?;
        if number.value < low {
            return None;
        }
        at += number.bytes;
        low = number.value + 1;
        mask += 1u16 << number.value;
        let &sign = text.get(at)?;
        at += 1;
        match sign {
            b'}' => {
                return Some(Token {
                    bytes: at,
                    value: Kind::Set.word(mask),
                });
            }
            b',' => {}
            _ => return None,
        }
    }
}
