// Class 2 pictures: runs of white and black dots, drawn straight into the output.
ghost use Rattle.std.specs.Prelude.{◌≡◌, ◌+◌, ◌*◌, ◌<◌, ◌≤◌, ◌++◌, length, take, drop};
ghost use Rattle.pictures.specs.Size.{runs_class, row_size, picture_size};
ghost use Rattle.pictures.specs.Dots.{pack};
ghost use Rattle.pictures.specs.Rows.{runs_row, picture};
ghost use Rattle.pictures.specs.Drawing.{line_from, line_of, dots_of, drawn_of, repeated};

use crate::{dots, size};

// Draws the row that the runs begin with, and says how many of them are its own. A row that is not whole is white.
fn draw_line(runs: &[u8], width: u16, out: &mut [u8]) -> Option<usize>
    requires { width ≤ 8 * length out.old }
    ensures value { result ≡ line_of (line_from width runs.now 0) }
    ensures out_after { out.new ≡ pack (length out.old) (dots_of (line_from width runs.now 0)) }
{
    out.fill(0);
    let mut filled: u16 = 0;
    let mut black = false;
    for (i, &run) in runs.iter().enumerate() {
        let end = u32::from(filled) + u32::from(run);
        if u32::from(width) < end {
            break;
        }
        dots::put_run(out, black, filled, run);
        if end == u32::from(width) {
            return Some(i + 1);
        }
        filled = end as u16;
        black = !black;
    }
    out.fill(0);
    None
}

// How many of the runs are the row's that they begin with, if it is whole. The colours are left out, since rows above the one asked for are only passed.
fn skip_line(runs: &[u8], width: u16) -> Option<usize>
    ensures { result ≡ line_of (line_from width runs.now 0) }
{
    let mut left = u32::from(width);
    for (i, &run) in runs.iter().enumerate() {
        let run = u32::from(run);
        if left <= run {
            return (left == run).then_some(i + 1);
        }
        left -= run;
    }
    None
}

// The data from the repeat count of a row on, or no data if the row is not drawn.
fn seek(bytes: &[u8], width: u16, row: u16) -> &[u8]
    ensures { runs_row width result.now 0 ≡ runs_row width bytes.now row }
{
    let mut rest = bytes;
    let mut above = row;
    while let Some((repeat, runs)) = rest.split_first() {
        let repeat = u16::from(*repeat);
        if above <= repeat {
            return rest;
        }
        let Some(used) = skip_line(runs, width) else {
            return &[];
        };
        rest = &runs[used..];
        above -= repeat + 1;
    }
    rest
}

// Draws one row.
pub(crate) fn draw_runs_row(width: u16, bytes: &[u8], row: u16, out: &mut [u8])
    requires { length out.old ≡ row_size width }
    ensures { out.new ≡ pack (row_size width) (runs_row width bytes.now row) }
{
    match seek(bytes, width, row).split_first() {
        Some((_, runs)) => {
            draw_line(runs, width, out);
        }
        None => out.fill(0),
    }
}

// Makes the first n bytes of a slice stand there a number of times, by twice as many each turn (as no range counts).
fn repeat_row(out: &mut [u8], n: usize, times: usize)
    requires { (0 < times) × (times * n ≤ length out.old) }
    ensures { out.new ≡ repeated times (take n out.old) ++ drop (times * n) out.old }
{
    let mut done: usize = 1;
    while done < times {
        let more = done.min(times - done);
        out.copy_within(..more * n, done * n);
        done += more;
    }
}

// Draws the row that the runs begin with, so many times in all. Where it is not whole, all of the output is white.
fn draw_times(runs: &[u8], width: u16, times: usize, out: &mut [u8]) -> Option<usize>
    requires { (0 < times) × (times * row_size width ≤ length out.old) }
    ensures value { result ≡ line_of (line_from width runs.now 0) }
    ensures out_after { out.new ≡ drawn_of (row_size width) times (line_from width runs.now 0) out.old }
{
    let n = size::row_size(width);
    let used = draw_line(runs, width, &mut out[..n]);
    match used {
        Some(_) => repeat_row(out, n, times),
        None => out.fill(0),
    }
    used
}

// Draws all rows, in one pass over the data.
pub(crate) fn draw_runs(width: u16, height: u16, bytes: &[u8], out: &mut [u8])
    requires { length out.old ≡ picture_size width height }
    ensures { out.new ≡ picture runs_class width bytes.now height }
{
    let n = size::row_size(width);
    let height = usize::from(height);
    let mut rest = bytes;
    let mut top = 0;
    while let Some((repeat, runs)) = rest.split_first() {
        if height <= top {
            return;
        }
        let times = (usize::from(*repeat) + 1).min(height - top);
        let Some(used) = draw_times(runs, width, times, &mut out[top * n..]) else {
            return;
        };
        rest = &runs[used..];
        top += times;
    }
    out[top * n..].fill(0);
}
