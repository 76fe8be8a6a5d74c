// A number in a line, with the byte after it. Every function returns the place after what it wrote.
ghost use Rattle.std.specs.Prelude.{◌+◌, ◌≤◌, length};
ghost use Rattle.text.specs.Wrote.{Wrote};
ghost use Rattle.text.specs.Column.{number_room, column};

use stream::digits::write_digits;

pub fn write_column(out: &mut [u8], at: usize, n: usize, after: u8) -> usize
    requires { at + length (column n after) ≤ length out.old }
    ensures { Wrote out.old at (column n after) result out.new }
{
    let end = write_digits(out, at, n);
    out[end] = after;
    end + 1
}

// Any number: 20 digits at most.
pub fn write_number(out: &mut [u8], at: usize, n: usize, after: u8) -> usize
    requires { at + number_room ≤ length out.old }
    ensures wrote { Wrote out.old at (column n after) result out.new }
    ensures upper_bound { result ≤ at + number_room }
{
    write_column(out, at, n, after)
}
