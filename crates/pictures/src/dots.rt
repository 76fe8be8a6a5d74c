// The bytes of a row of dots.
ghost use Rattle.std.specs.Prelude.{◌≡◌, ℕ, ◌+◌, ◌-◌, ◌*◌, ◌^◌, ◌<◌, ◌≤◌, Bool, true, List, ◌++◌, length, replicate, slice_index, slice_set};
ghost use Rattle.pictures.specs.Dots.{pack};
ghost use Rattle.pictures.specs.Drawing.{darker, padding_bits};

// The black dots from a place of a byte on.
fn dots_from(place: usize) -> u8
    requires { place ≤ 8 }
    ensures { result ≡ 2 ^ (8 - place) - 1 }
{
    ((256u16 >> place) - 1) as u8
}

// The bits of the last byte of a row that lie within the width.
pub(crate) fn kept_bits(width: u16) -> u8
    ensures { result ≡ 256 - 2 ^ padding_bits width }
{
    255 - dots_from((usize::from(width) + 7) % 8 + 1)
}

// Adds black dots that were white to a byte. A sum does what an or of bits would, and is arithmetic.
fn darken(row: &mut [u8], i: usize, dots: u8)
    requires { i < length row.old }
    ensures { row.new ≡ slice_set row.old i (darker (slice_index row.old i) dots) }
{
    row[i] = row[i].wrapping_add(dots);
}

// Makes whole bytes black, which follow the dots of a row.
fn blacken_bytes(row: &mut [u8], from: usize, to: usize)
    requires { (from ≤ to) × (to ≤ length row.old) }
    ensures { (n : ℕ) (ds : List Bool) → length ds ≡ from * 8 → row.old ≡ pack n ds
        → row.new ≡ pack n (ds ++ replicate ((to - from) * 8) true) }
{
    row[from..to].fill(255);
}

// Makes a run black, which follows the dots of a row: part of a byte, whole bytes, part of a byte.
fn blacken(row: &mut [u8], from: u16, count: u8)
    requires { from + count ≤ 8 * length row.old }
    ensures { (n : ℕ) (ds : List Bool) → length ds ≡ from → row.old ≡ pack n ds
        → row.new ≡ pack n (ds ++ replicate count true) }
{
    if count == 0 {
        return;
    }
    let start = usize::from(from);
    let end = start + usize::from(count);
    let first = start / 8;
    let last = end / 8;
    let head = dots_from(start % 8);
    let tail = dots_from(end % 8);
    if first == last {
        darken(row, first, head - tail);
        return;
    }
    darken(row, first, head);
    blacken_bytes(row, first + 1, last);
    if 0 < end % 8 {
        darken(row, last, 255 - tail);
    }
}

// Adds a run of either colour to the dots of a row; beyond them the row is white.
pub(crate) fn put_run(row: &mut [u8], black: bool, from: u16, count: u8)
    requires { from + count ≤ 8 * length row.old }
    ensures { (n : ℕ) (ds : List Bool) → length ds ≡ from → row.old ≡ pack n ds
        → row.new ≡ pack n (ds ++ replicate count black) }
{
    if black {
        blacken(row, from, count);
    }
}
