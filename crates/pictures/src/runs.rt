// Class 2 picture data: the reader's state, its step, and scanning data from a state.
ghost use Rattle.std.specs.Prelude.{◌≡◌, ℕ, ◌+◌, ◌-◌, ◌^◌, ◌<◌, ◌≤◌, [], ◌++◌, length, sum};
ghost use Rattle.pictures.specs.Runs.{fill_row, end_row, place_of, run_in, step_run, is_finished, scan_from, start, used_of};
ghost use Rattle.pictures.specs.Passing.{is_at_run, is_in_row, is_black, filled_at, at_run, count_row, stopped_in, finished_at, Passes, PassesRuns};

// From this width on, eight runs at a time are tried: in a narrower row they seldom leave it unfinished.
const WIDE: u16 = 64;

// Where the reader is: at a repeat count, in a white or a black run with dots filled, finished.
#[derive(Clone, Copy)]
pub enum Place {
    Count,
    White(u16),
    Black(u16),
    Finished,
}

// The state of the reader: the row in progress, its repeats, the place in it.
#[derive(Clone, Copy)]
pub struct Reader {
    pub row: u16,
    pub repeat: u8,
    pub at: Place,
}

// What a run leaves of a row: an enum, since these are three cases and none is a failure.
#[derive(Clone, Copy)]
pub enum Filled {
    Over,
    Whole,
    Part(u16),
}

// A run past the width: its row, the dots filled before it, and the run.
#[derive(Clone, Copy)]
pub struct PastWidth {
    pub row: u16,
    pub filled: u16,
    pub run: u8,
}

// How far data goes: complete with the bytes used, or open with the state.
#[derive(Clone, Copy)]
pub enum Scanned {
    Complete(usize),
    Open(Reader),
}

// Where a scan goes on: the state and the place in the data.
#[derive(Clone, Copy)]
pub struct Passed {
    pub reader: Reader,
    pub at: usize,
}

// A run of the row in progress: its place in the data, the dots that the row lacks before it, its colour.
#[derive(Clone, Copy)]
pub struct Inside {
    pub at: usize,
    pub left: u32,
    pub black: bool,
}

// A run in a row of which some dots are filled.
pub fn fill(width: u16, filled: u16, run: u8) -> Filled
    ensures { result ≡ fill_row width filled run }
{
    let end = u32::from(filled) + u32::from(run);
    if u32::from(width) < end {
        return Filled::Over;
    }
    if end == u32::from(width) {
        return Filled::Whole;
    }
    Filled::Part(end as u16)
}

// The dots of at most eight runs.
fn sum_of(runs: &[u8]) -> u32
    requires { length runs.now ≤ 8 }
    ensures { result ≡ sum runs.now }
{
    runs.iter().map(|run| u32::from(*run)).sum()
}

// The place in a row of the next run's colour.
fn place_of(black: bool, filled: u16) -> Place
    ensures { result ≡ place_of black filled }
{
    if black {
        Place::Black(filled)
    } else {
        Place::White(filled)
    }
}

// A scan whose picture is complete with the bytes before a place.
fn finished(height: u16, at: usize) -> Passed
    ensures { result ≡ finished_at height at }
{
    Passed {
        reader: Reader {
            row: height,
            repeat: 0,
            at: Place::Finished,
        },
        at,
    }
}

impl Inside {
    // Over eight runs at a time that leave the row unfinished: their sum alone tells, several times as fast as run by run. A loop by an index, here
    // and over pairs: chunks of the slice took up to 1.4 times as long.
    fn pass_eights(self, src: &[u8]) -> Inside
        requires { self.at < length src.now }
        ensures { PassesRuns src.now self result }
    {
        let last = src.len().saturating_sub(8);
        let mut i = self;
        while i.at < last {
            let sum = sum_of(&src[i.at..i.at + 8]);
            if i.left <= sum {
                return i;
            }
            i.left -= sum;
            i.at += 8;
        }
        i
    }

    // Over one run, if it leaves the row unfinished and is not the last byte.
    fn pass_one(self, src: &[u8]) -> Inside
        requires { self.at < length src.now }
        ensures { PassesRuns src.now self result }
    {
        if src.len() - self.at < 2 {
            return self;
        }
        let run = u32::from(src[self.at]);
        if self.left <= run {
            return self;
        }
        Inside {
            at: self.at + 1,
            left: self.left - run,
            black: !self.black,
        }
    }

    // Over two runs at a time, which have both colours, to the one that does not leave the row unfinished or the last byte.
    fn pass_pairs(self, src: &[u8]) -> Inside
        requires { self.at < length src.now }
        ensures { PassesRuns src.now self result }
    {
        let last = src.len().saturating_sub(2);
        let mut i = self;
        while i.at < last {
            let first = u32::from(src[i.at]);
            if i.left <= first {
                return i;
            }
            let second = u32::from(src[i.at + 1]);
            if i.left - first <= second {
                return Inside {
                    at: i.at + 1,
                    left: i.left - first,
                    black: !i.black,
                };
            }
            i.left -= first + second;
            i.at += 2;
        }
        i.pass_one(src)
    }

    // Over the runs that leave the row unfinished.
    fn pass_runs(self, src: &[u8], width: u16) -> Inside
        requires { self.at < length src.now }
        ensures { PassesRuns src.now self result }
    {
        if width < WIDE {
            return self.pass_pairs(src);
        }
        self.pass_eights(src).pass_pairs(src)
    }

    // A scan that stops at the run, in a row with so many repeats.
    fn stopped(self, row: u16, repeat: u8, width: u16) -> Passed
        requires { self.left ≤ width }
        ensures { result ≡ stopped_in width row repeat self }
    {
        let filled = u32::from(width) - self.left;
        Passed {
            reader: Reader {
                row,
                repeat,
                at: place_of(self.black, filled as u16),
            },
            at: self.at,
        }
    }
}

impl Place {
    fn is_finished(self) -> bool
        ensures { result ≡ is_finished self }
    {
        matches!(self, Place::Finished)
    }

    fn is_at_run(self) -> bool
        ensures { result ≡ is_at_run self }
    {
        matches!(self, Place::White(_) | Place::Black(_))
    }

    fn is_black(self) -> bool
        ensures { result ≡ is_black self }
    {
        matches!(self, Place::Black(_))
    }

    fn filled(self) -> u16
        ensures { result ≡ filled_at self }
    {
        match self {
            Place::White(f) | Place::Black(f) => f,
            _ => 0,
        }
    }

    // At a run before which no more dots are filled than the row has.
    fn is_in_row(self, width: u16) -> bool
        ensures { result ≡ is_in_row width self }
    {
        self.is_at_run() && self.filled() <= width
    }
}

impl Scanned {
    // The bytes used, if the picture is complete.
    pub(crate) fn used(self) -> Option<usize>
        ensures { result ≡ used_of self }
    {
        match self {
            Scanned::Complete(used) => Some(used),
            Scanned::Open(_) => None,
        }
    }
}

impl Reader {
    // At the first row's repeat count.
    pub fn start() -> Reader
        ensures { result ≡ start }
    {
        Reader {
            row: 0,
            repeat: 0,
            at: Place::Count,
        }
    }

    // At a run of its row.
    fn at_run(self, black: bool, filled: u16) -> Reader
        ensures { result ≡ at_run self black filled }
    {
        Reader {
            row: self.row,
            repeat: self.repeat,
            at: place_of(black, filled),
        }
    }

    // A whole row: the next row's count, or finished.
    fn end_row(self, height: u16) -> Reader
        ensures { result ≡ end_row height self }
    {
        let next = u32::from(self.row) + 1 + u32::from(self.repeat);
        if u32::from(height) <= next {
            Reader {
                row: height,
                repeat: 0,
                at: Place::Finished,
            }
        } else {
            Reader {
                row: next as u16,
                repeat: 0,
                at: Place::Count,
            }
        }
    }

    // A run, black or not, where some dots of its row are filled: the next one has the other colour.
    fn run_in(
        self,
        width: u16,
        height: u16,
        run: u8,
        black: bool,
        filled: u16,
    ) -> Result<Reader, PastWidth>
        ensures { result ≡ run_in width height self run black filled }
    {
        match fill(width, filled, run) {
            Filled::Over => Err(PastWidth {
                row: self.row,
                filled,
                run,
            }),
            Filled::Whole => Ok(self.end_row(height)),
            Filled::Part(n) => Ok(self.at_run(!black, n)),
        }
    }

    // At a repeat count.
    fn count(self, byte: u8) -> Reader
        ensures { result ≡ count_row self byte }
    {
        Reader {
            row: self.row,
            repeat: byte,
            at: Place::White(0),
        }
    }

    // One byte of data: whether a run ends the row, or passes it, does not depend on its colour.
    pub fn step(self, width: u16, height: u16, byte: u8) -> Result<Reader, PastWidth>
        ensures { result ≡ step_run width height self byte }
    {
        if self.at.is_at_run() {
            return self.run_in(width, height, byte, self.at.is_black(), self.at.filled());
        }
        if self.at.is_finished() {
            return Ok(self);
        }
        Ok(self.count(byte))
    }

    // Over a repeat count, unless it is the last byte.
    fn pass_count(self, src: &[u8], from: usize) -> Passed
        requires { from < length src.now }
        ensures { ((w h : ℕ) → Passes w h src.now from self result) × (result.at < length src.now) }
    {
        if self.at.is_at_run() || self.at.is_finished() {
            return Passed {
                reader: self,
                at: from,
            };
        }
        if src.len() - from < 2 {
            return Passed {
                reader: self,
                at: from,
            };
        }
        Passed {
            reader: self.count(src[from]),
            at: from + 1,
        }
    }

    // From a run of its row on (a loop, since each turn takes a row, its end and a count), over whole rows and the runs that leave a row unfinished. The state is taken apart once and put together once, not for each row,
    // and its numbers are whole words meanwhile, which are faster than halves.
    fn pass_from(self, begin: Inside, src: &[u8], width: u16, height: u16) -> Passed
        requires { (begin.at < length src.now) × (begin.left ≤ width) }
        ensures { Passes width height src.now begin.at (at_run self begin.black (width - begin.left)) result }
    {
        let mut row = u32::from(self.row);
        let mut repeat = u32::from(self.repeat);
        let mut i = begin;
        loop {
            let stop = i.pass_runs(src, width);
            let at = stop.at;
            if u32::from(src[at]) != stop.left {
                return stop.stopped(row as u16, repeat as u8, width);
            }
            let below = row + 1 + repeat;
            if u32::from(height) <= below {
                return finished(height, at + 1);
            }
            if src.len() - at < 3 {
                return stop.stopped(row as u16, repeat as u8, width);
            }
            row = below;
            repeat = u32::from(src[at + 1]);
            i = Inside {
                at: at + 2,
                left: u32::from(width),
                black: false,
            };
        }
    }

    // The same from any state.
    fn pass_rows(self, src: &[u8], from: usize, width: u16, height: u16) -> Passed
        requires { from < length src.now }
        ensures { Passes width height src.now from self result }
    {
        if !self.at.is_in_row(width) {
            return Passed {
                reader: self,
                at: from,
            };
        }
        let begin = Inside {
            at: from,
            left: u32::from(width - self.at.filled()),
            black: self.at.is_black(),
        };
        self.pass_from(begin, src, width, height)
    }

    // Over a count, whole rows and runs, to the picture's end or to a byte that is left to `step`: a run past the width, or one near the data's end.
    fn pass(self, src: &[u8], from: usize, width: u16, height: u16) -> Passed
        requires { from < length src.now }
        ensures { Passes width height src.now from self result }
    {
        let counted = self.pass_count(src, from);
        counted.reader.pass_rows(src, counted.at, width, height)
    }

    // The data after all of it is read, where so many bytes were used.
    fn answer(self, used: usize) -> Scanned
        ensures { (w h : ℕ) → Ok result ≡ scan_from w h used self [] }
    {
        if self.at.is_finished() {
            Scanned::Complete(used)
        } else {
            Scanned::Open(self)
        }
    }
}

// The data from a state that an earlier part of used bytes left. By its place, not by a slice of the rest, since the place is the answer too.
pub fn scan_from(
    from: Reader,
    used: usize,
    src: &[u8],
    width: u16,
    height: u16,
) -> Result<Scanned, PastWidth>
    requires { used + length src.now < 2 ^ 64 }
    ensures { result ≡ scan_from width height used from src.now }
{
    let mut s = from;
    let mut i = 0;
    while i < src.len() {
        let p = s.pass(src, i, width, height);
        if p.reader.at.is_finished() {
            return Ok(Scanned::Complete(used + p.at));
        }
        s = p.reader.step(width, height, src[p.at])?;
        i = p.at + 1;
    }
    Ok(s.answer(used + i))
}

pub fn scan(src: &[u8], width: u16, height: u16) -> Result<Scanned, PastWidth>
    ensures { result ≡ scan_from width height 0 start src.now }
{
    scan_from(Reader::start(), 0, src, width, height)
}

// The data in two parts, as if they were joined.
pub fn scan_joined(kept: &[u8], more: &[u8], width: u16, height: u16) -> Result<Scanned, PastWidth>
    ensures { result ≡ scan_from width height 0 start (kept.now ++ more.now) }
{
    match scan(kept, width, height)? {
        Scanned::Complete(used) => Ok(Scanned::Complete(used)),
        Scanned::Open(s) => scan_from(s, kept.len(), more, width, height),
    }
}
