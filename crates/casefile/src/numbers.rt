// Numbers in a case's bytes, low byte first.
ghost use Rattle.std.specs.Prelude.{◌≡◌, ◌+◌, ◌*◌, ◌≤◌, ℕ, List, length};
ghost use Rattle.casefile.specs.Cases.{half, wide, numbers};

// A number that so many bytes hold.
pub(crate) trait Number: Copy {
    ghost WIDTH: { ℕ };

    ghost at: { List ℕ → ℕ → Self };

    const WIDTH: usize;

    // The number at place k.
    fn read(bytes: &[u8], k: usize) -> Self
        requires { k + WIDTH ≤ length bytes.now }
        ensures { result ≡ at bytes.now k };
}

impl Number for u16 {
    ghost WIDTH = { 2 };

    ghost at = { half };

    const WIDTH: usize = 2;

    fn read(bytes: &[u8], k: usize) -> u16 {
        u16::from_le_bytes([bytes[k], bytes[k + 1]])
    }
}

impl Number for u32 {
    ghost WIDTH = { 4 };

    ghost at = { wide };

    const WIDTH: usize = 4;

    fn read(bytes: &[u8], k: usize) -> u32 {
        u32::from_le_bytes([bytes[k], bytes[k + 1], bytes[k + 2], bytes[k + 3]])
    }
}

// Fills the places with the numbers that stand one behind the other from place k of the bytes on.
pub(crate) fn fill<T: Number>(bytes: &[u8], k: usize, places: &mut [T])
    requires { k + length places.old * T.WIDTH ≤ length bytes.now }
    ensures { places.new ≡ numbers (T.at bytes.now) T.WIDTH k (length places.old) }
{
    for i in 0..places.len() {
        places[i] = T::read(bytes, k + i * T::WIDTH);
    }
}
