// The black dots of class 2 data: the black runs of its rows, each as often as the row is drawn.
ghost use Rattle.std.specs.Prelude.{◌≡◌, ◌+◌, ◌≤◌, MatchOption};
ghost use Rattle.pictures.specs.Size.{runs_class};
ghost use Rattle.pictures.specs.Drawing.{line_from, no_row};
ghost use Rattle.blackdots.specs.Black.{black_dots};
ghost use Rattle.blackdots.specs.Counting.{white_eight, black_eight, CountedTo, WholeLine};

// From this width on, eight runs at a time are tried: in a narrower row they seldom leave it unfinished.
const WIDE: u16 = 64;

// A row that is whole: how many of its dots are black, and the data after it.
#[derive(Clone, Copy)]
pub struct BlackLine<'a> {
    pub black: u32,
    pub rest: &'a [u8],
}

// The runs of a row from a white one on, the dots that the row lacks there, and its black dots so far.
#[derive(Clone, Copy)]
pub struct Upto<'a> {
    pub runs: &'a [u8],
    pub left: u32,
    pub black: u32,
}

// The white ones among eight runs of which the first is white, and the black ones.
fn white_of_eight(runs: &[u8; 8]) -> u32
    ensures { (result ≡ white_eight runs.now) × (result ≤ 1020) }
{
    u32::from(runs[0]) + u32::from(runs[2]) + u32::from(runs[4]) + u32::from(runs[6])
}

fn black_of_eight(runs: &[u8; 8]) -> u32
    ensures { (result ≡ black_eight runs.now) × (result ≤ 1020) }
{
    u32::from(runs[1]) + u32::from(runs[3]) + u32::from(runs[5]) + u32::from(runs[7])
}

// Over eight runs at a time that leave the row unfinished: their sum alone tells.
fn pass_eights(runs: &[u8], width: u16) -> Upto<'_>
    ensures { CountedTo width runs.now result.runs.now result.left result.black }
{
    let mut rest = runs;
    let mut left = u32::from(width);
    let mut black = 0;
    while let Some((eight, after)) = rest.split_first_chunk::<8>() {
        let dark = black_of_eight(eight);
        let sum = white_of_eight(eight) + dark;
        if left <= sum {
            return Upto {
                runs: rest,
                left,
                black,
            };
        }
        left -= sum;
        black += dark;
        rest = after;
    }
    Upto {
        runs: rest,
        left,
        black,
    }
}

// Where a row is read run by run: a narrow one from its start.
fn begin_line(runs: &[u8], width: u16) -> Upto<'_>
    ensures { CountedTo width runs.now result.runs.now result.left result.black }
{
    if width < WIDE {
        return Upto {
            runs,
            left: u32::from(width),
            black: 0,
        };
    }
    pass_eights(runs, width)
}

// The row whose runs stand first, if it is whole: a white run and a black one in each turn.
fn count_line(runs: &[u8], width: u16) -> Option<BlackLine<'_>>
    ensures { MatchOption result (line_from width runs.now 0 ≡ no_row) (λ l. WholeLine width runs.now l.rest.now l.black) }
{
    let begin = begin_line(runs, width);
    let mut rest = begin.runs;
    let mut left = begin.left;
    let mut black = begin.black;
    while let Some((&white, after)) = rest.split_first() {
        let white = u32::from(white);
        if left <= white {
            return (left == white).then_some(BlackLine { black, rest: after });
        }
        let (&run, after) = after.split_first()?;
        let run = u32::from(run);
        left -= white;
        black += run;
        if left <= run {
            return (left == run).then_some(BlackLine { black, rest: after });
        }
        left -= run;
        rest = after;
    }
    None
}

// The black dots of a class 2 picture. "Repeats below the last row are dropped."
pub(crate) fn black_in_runs(width: u16, height: u16, bytes: &[u8]) -> u32
    ensures { result ≡ black_dots runs_class width height bytes.now }
{
    let mut n = 0;
    let mut top = 0;
    let mut rest = bytes;
    while let Some((&repeats, runs)) = rest.split_first() {
        if u32::from(height) <= top {
            return n;
        }
        let times = (u32::from(repeats) + 1).min(u32::from(height) - top);
        let Some(line) = count_line(runs, width) else {
            return n;
        };
        n += times * line.black;
        top += times;
        rest = line.rest;
    }
    n
}
