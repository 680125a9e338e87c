// Masks packed for both columns, and rows turned.
ghost use Rattle.std.specs.Prelude.{◌≡◌};
ghost use Rattle.rows.specs.Rows.{Packed, turned_row, satisfied_in, possible_in};

// A mask for each column, packed.
pub fn packed(satisfied: u32, possible: u32) -> u64
    ensures { Packed satisfied possible result }
{
    satisfied as u64 | ((possible as u64) << 32)
}

// A row turned by one digit: each word's digits stand where those of the word before it stood, and the first digit last.
pub fn turned(row: u64) -> u64
    ensures { result ≡ turned_row row }
{
    row / 2 + 0x8000_0000_0000_0000 * (row % 2)
}

// The column of satisfied, from a turned row.
pub fn satisfied_in(left: u64) -> u32
    ensures { result ≡ satisfied_in left }
{
    (2 * (left % 0x8000_0000) + left / 0x8000_0000_0000_0000) as u32
}

// The column of possible, from a turned row.
pub fn possible_in(left: u64) -> u32
    ensures { result ≡ possible_in left }
{
    (left / 0x8000_0000 % 0x1_0000_0000) as u32
}
