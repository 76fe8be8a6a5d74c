// The last line: the commands done and refused, and where the stream broke.
ghost use Rattle.std.specs.Prelude.{◌+◌, ◌≤◌, length};
ghost use Rattle.text.specs.Wrote.{Wrote};
ghost use Rattle.stream.specs.Reading.{end_answer};
ghost use Rattle.listing.specs.Summary.{counts, stopped, summary};

use stream::digits::write_digits;
use stream::reading::{CommandCounts, Stopped};
use stream::writing::write_bytes;
use text::column::write_column;

fn write_counts(out: &mut [u8], at: usize, done: usize, refused: usize) -> usize
    requires { at + 54 ≤ length out.old }
    ensures wrote { Wrote out.old at (counts done refused) result out.new }
    ensures upper_bound { result ≤ at + 54 }
{
    let first = write_bytes(out, at, b"done ");
    let word = write_column(out, first, done, b' ');
    let second = write_bytes(out, word, b"refused ");
    write_digits(out, second, refused)
}

fn write_place(out: &mut [u8], at: usize, p: usize) -> usize
    requires { at + 30 ≤ length out.old }
    ensures { Wrote out.old at (stopped p) result out.new }
{
    let from = write_bytes(out, at, b" stopped ");
    write_column(out, from, p, b'\n')
}

pub fn write_summary(out: &mut [u8], at: usize, read: Stopped) -> usize
    requires { at + 84 ≤ length out.old }
    ensures { Wrote out.old at (summary (end_answer read.ending read.counts read.bad)) result out.new }
{
    let CommandCounts { done, refused } = read.counts;
    let end = write_counts(out, at, done as usize, refused as usize);
    match read.ending {
        Some(place) => write_place(out, end, place),
        None => write_bytes(out, end, b"\n"),
    }
}
