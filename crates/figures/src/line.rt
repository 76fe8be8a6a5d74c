// The line of a code.
ghost use Rattle.std.specs.Prelude.{◌+◌, ◌*◌, ◌≤◌, length};
ghost use Rattle.text.specs.Wrote.{Wrote};
ghost use Rattle.text.specs.Column.{number_room};
ghost use Rattle.figures.specs.Lines.{four_columns};
ghost use Rattle.figures.specs.Table.{figure_line, line_room};

use collection::figure;
use collection::figure::Figure;
use text::column::write_number;

// Four numbers, each with a space after it, but the last with this byte.
fn write_four(out: &mut [u8], at: usize, n: [usize; 4], after: u8) -> usize
    requires { at + 4 * number_room ≤ length out.old }
    ensures wrote { Wrote out.old at (four_columns n after) result out.new }
    ensures upper_bound { result ≤ at + 4 * number_room }
{
    let second = write_number(out, at, n[0], b' ');
    let third = write_number(out, second, n[1], b' ');
    let fourth = write_number(out, third, n[2], b' ');
    write_number(out, fourth, n[3], after)
}

pub fn write_line(out: &mut [u8], at: usize, code: usize, f: Figure) -> usize
    requires { at + line_room ≤ length out.old }
    ensures wrote { Wrote out.old at (figure_line code f) result out.new }
    ensures upper_bound { result ≤ at + line_room }
{
    let mean = figure::mean(f.sum, f.count);
    let rest = figure::rest(f.sum, f.count);
    let middle = write_four(out, at, [code, f.count, f.dots, f.least], b' ');
    write_four(out, middle, [f.greatest, f.sum, mean, rest], b'\n')
}
