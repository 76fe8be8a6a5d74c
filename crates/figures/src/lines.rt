// The lines of the codes that occur, by rising code.
ghost use Rattle.std.specs.Prelude.{◌≡◌, ◌+◌, ◌*◌, ◌≤◌, length};
ghost use Rattle.form.specs.Layout.{last_code};
ghost use Rattle.collection.specs.Figures.{figures_bytes, figure_at};
ghost use Rattle.text.specs.Wrote.{Wrote};
ghost use Rattle.figures.specs.Table.{code_line, line_room};
ghost use Rattle.figures.specs.Lines.{lines_in};

use crate::line::write_line;
use collection::figure;
use form::layout::LAST_CODE;

// The line of a code, if it occurs.
fn write_code(out: &mut [u8], at: usize, figures: &[u8], code: usize) -> usize
    requires { (at + line_room ≤ length out.old) × (code ≤ last_code) × (length figures.now ≡ figures_bytes) }
    ensures wrote { Wrote out.old at (code_line code (figure_at figures.now code)) result out.new }
    ensures upper_bound { result ≤ at + line_room }
{
    let f = figure::figure_of(figures, code);
    if f.count == 0 {
        return at;
    }
    write_line(out, at, code, f)
}

pub fn write_lines(out: &mut [u8], at: usize, figures: &[u8]) -> usize
    requires { (at + line_room * (last_code + 1) ≤ length out.old) × (length figures.now ≡ figures_bytes) }
    ensures { Wrote out.old at (lines_in figures.now (last_code + 1)) result out.new }
{
    let mut to = at;
    for code in 0..LAST_CODE + 1 {
        to = write_code(out, to, figures, code);
    }
    to
}
