// The status of an instance, and its letter.
ghost use Rattle.std.specs.Prelude.{◌≡◌};
ghost use Rattle.instance.specs.Letters.{letter, Reads};

// The status of an instance (document 01: standing): closed, or whether its taken actions satisfy the policy.
#[derive(Clone, Copy, Debug, PartialEq, Eq)]
pub enum Status {
    // `d`
    Closed,

    // `c`
    Complete,

    // `o`
    Open,
}

// A byte that is the letter of no status.
#[derive(Clone, Copy, Debug, PartialEq, Eq)]
pub struct UnknownLetter(pub u8);

impl From<Status> for u8 {
    ghost from_gives = { λ status byte. byte ≡ letter status };

    fn from(status: Status) -> u8 {
        match status {
            Status::Closed => b'd',
            Status::Complete => b'c',
            Status::Open => b'o',
        }
    }
}

impl TryFrom<u8> for Status {
    type Error = UnknownLetter;

    ghost try_from_gives = { Reads };

    fn try_from(byte: u8) -> Result<Self, UnknownLetter> {
        match byte {
            b'd' => Ok(Status::Closed),
            b'c' => Ok(Status::Complete),
            b'o' => Ok(Status::Open),
            _ => Err(UnknownLetter(byte)),
        }
    }
}
