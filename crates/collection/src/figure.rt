// The figure of a code, and the bytes that it stands in.
ghost use Rattle.std.specs.Prelude.{◌≡◌, ◌+◌, ◌≤◌, ◌<◌, ◌^◌, max, length};
ghost use Rattle.form.specs.Layout.{last_code};
ghost use Rattle.form.specs.Num.{low_first, field};
ghost use Rattle.change.specs.Put.{with_bytes};
ghost use Rattle.collection.specs.Figures.{lesser_width, joined, mean, rest, code_bytes, figures_bytes, code_place, figure_from, figure_at, bytes_of_figure};

use change;

// Of the characters of one code: how many there are, the black dots, the least and greatest width, the sum of delta X.
#[derive(Clone, Copy)]
pub struct Figure {
    pub count: usize,
    pub dots: usize,
    pub least: usize,
    pub greatest: usize,
    pub sum: usize,
}

// The stores so far, and for each code seven numbers, all of 8 bytes.
const NUMBER_BYTES: usize = 8;

const CODE_BYTES: usize = 7 * NUMBER_BYTES;

pub const FIGURES_BYTES: usize = 14344;

// Where the numbers of a code stand after its count, each of 8 bytes.
const DOTS_AT: usize = NUMBER_BYTES;

const LEAST_AT: usize = 2 * NUMBER_BYTES;

const GREATEST_AT: usize = 3 * NUMBER_BYTES;

const SUM_AT: usize = 4 * NUMBER_BYTES;

const MEAN_AT: usize = 5 * NUMBER_BYTES;

const REST_AT: usize = 6 * NUMBER_BYTES;

// The number in eight bytes, low byte first.
pub(crate) fn number_at(b: &[u8], at: usize) -> usize
    requires { at + 8 ≤ length b.now }
    ensures { result ≡ field 8 at b.now }
{
    let mut bytes = [0; NUMBER_BYTES];
    bytes.copy_from_slice(&b[at..at + NUMBER_BYTES]);
    usize::from_le_bytes(bytes)
}

// The figure that stands at a place.
pub(crate) fn figure_at(b: &[u8], at: usize) -> Figure
    requires { at + code_bytes ≤ length b.now }
    ensures { result ≡ figure_from b.now at }
{
    Figure {
        count: number_at(b, at),
        dots: number_at(b, at + DOTS_AT),
        least: number_at(b, at + LEAST_AT),
        greatest: number_at(b, at + GREATEST_AT),
        sum: number_at(b, at + SUM_AT),
    }
}

// Where the numbers of a code stand.
pub(crate) fn code_place(code: usize) -> usize
    requires { code ≤ last_code }
    ensures { result ≡ code_place code }
{
    NUMBER_BYTES + code * CODE_BYTES
}

// The figure of a code.
pub fn figure_of(b: &[u8], code: usize) -> Figure
    requires { (length b.now ≡ figures_bytes) × (code ≤ last_code) }
    ensures { result ≡ figure_at b.now code }
{
    figure_at(b, code_place(code))
}

// The lesser of two widths, of which 0 counts as none.
fn lesser_width(a: usize, b: usize) -> usize
    ensures { result ≡ lesser_width a b }
{
    match (a, b) {
        (0, w) | (w, 0) => w,
        (v, w) => v.min(w),
    }
}

// With one character more.
pub(crate) fn with_character(f: Figure, width: usize, dots: usize, delta: usize) -> Figure
    requires { (f.count + 1 < 2 ^ 64) × (f.dots + dots < 2 ^ 64) × (f.sum + delta < 2 ^ 64) }
    ensures { result ≡ joined f (record { count = 1; dots = dots; least = width; greatest = width; sum = delta }) }
{
    Figure {
        count: f.count + 1,
        dots: f.dots + dots,
        least: lesser_width(f.least, width),
        greatest: f.greatest.max(width),
        sum: f.sum + delta,
    }
}

// The mean of a sum, rounded down; 0 of none. So is the rest.
pub fn mean(sum: usize, count: usize) -> usize
    ensures { result ≡ mean sum count }
{
    sum.checked_div(count).unwrap_or(0)
}

pub fn rest(sum: usize, count: usize) -> usize
    ensures { result ≡ rest sum count }
{
    sum.checked_rem(count).unwrap_or(0)
}

// Writes the seven numbers of a code at a place.
pub(crate) fn put_figure(b: &mut [u8], at: usize, f: Figure)
    requires { at + code_bytes ≤ length b.old }
    ensures { b.new ≡ with_bytes b.old at (bytes_of_figure f) }
{
    change::put::<8>(b, at, f.count);
    change::put::<8>(b, at + DOTS_AT, f.dots);
    change::put::<8>(b, at + LEAST_AT, f.least);
    change::put::<8>(b, at + GREATEST_AT, f.greatest);
    change::put::<8>(b, at + SUM_AT, f.sum);
    change::put::<8>(b, at + MEAN_AT, mean(f.sum, f.count));
    change::put::<8>(b, at + REST_AT, rest(f.sum, f.count));
}
