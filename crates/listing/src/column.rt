// The columns of a line: numbers of one or two bytes, each with the byte after it. Every function returns the place after what it wrote.
ghost use Rattle.std.specs.Prelude.{◌+◌, ◌≤◌, ◌<◌, length};
ghost use Rattle.text.specs.Wrote.{Wrote};
ghost use Rattle.text.specs.Column.{column};
ghost use Rattle.listing.specs.Column.{signed_column};

use text::column::write_column;

// A number of two bytes: five digits at most.
pub fn write_short(out: &mut [u8], at: usize, n: usize, after: u8) -> usize
    requires { (n < 65536) × (at + 6 ≤ length out.old) }
    ensures wrote { Wrote out.old at (column n after) result out.new }
    ensures upper_bound { result ≤ at + 6 }
{
    write_column(out, at, n, after)
}

// A byte in two's complement, with its sign if it is negative.
pub fn write_signed(out: &mut [u8], at: usize, b: u8, after: u8) -> usize
    requires { at + 7 ≤ length out.old }
    ensures wrote { Wrote out.old at (signed_column b after) result out.new }
    ensures upper_bound { result ≤ at + 7 }
{
    if b < 128 {
        return write_short(out, at, usize::from(b), after);
    }
    out[at] = b'-';
    write_short(out, at + 1, 256 - usize::from(b), after)
}
