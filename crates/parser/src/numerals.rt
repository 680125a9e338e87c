// Numbers of a text: 0 to 15, without a leading zero.
ghost use Rattle.text.specs.Grammar.{numeral_in};
ghost use Rattle.parser.specs.Private.{NumberRead};

use super::tokens::Token;

// The number that the text begins with, which has a second digit if that makes one of 10 to 15.
pub(crate) fn read_numeral(text: &[u8]) -> Option<Token<u8>>
    ensures { NumberRead (numeral_in text.now) text.now result }
{
    match text {
        [b'1', digit @ b'0'..=b'5', ..] => Some(Token {
            bytes: 2,
            value: 10 + (digit - b'0'),
        }),
        [digit @ b'0'..=b'9', ..] => Some(Token {
            bytes: 1,
            value: digit - b'0',
        }),
        _ => None,
    }
}
