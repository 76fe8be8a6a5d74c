// The whole text.
ghost use Rattle.std.specs.Prelude.{◌≤◌, length};
ghost use Rattle.std.specs.Counts.{IsPrefixLen};
ghost use Rattle.text.specs.Wrote.{Wrote};
ghost use Rattle.figures.specs.Table.{figures_table, table_room};

use crate::lines::write_lines;
use collection::{adding, figure};
use stream::writing::write_bytes;

// Room for every text: the heading, and for each code a line of eight numbers.
pub const TEXT: usize = 43264;

// Writes the whole text for this input, and returns its length.
pub fn write_table(input: &[u8], text: &mut [u8]) -> usize
    requires { table_room ≤ length text.old }
    ensures prefix_len { IsPrefixLen result text.new }
    ensures wrote { Wrote text.old 0 (figures_table input.now) result text.new }
{
    let mut figures = [0u8; figure::FIGURES_BYTES];
    if adding::add_figures(input, &mut figures) != 0 {
        return write_bytes(text, 0, b"not a store\n");
    }
    let start = write_bytes(text, 0, b"code count dots min max sum mean rest\n");
    write_lines(text, start, &figures)
}
