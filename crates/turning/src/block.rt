// Turns a picture by a quarter or by three, in blocks of eight by eight dots.
ghost use Rattle.std.specs.Prelude.{◌≡◌, true, false, cond, ℕ, ◌+◌, ◌*◌, ◌-◌, ◌≤◌, ◌<◌, min, length};
ghost use Rattle.pictures.specs.Size.{row_size, picture_size};
ghost use Rattle.turning.specs.Block.{flipped, block_dot, swapped};
ghost use Rattle.turning.specs.Turn.{turned};

use crate::picture::Picture;

// A place counted from the other end, where `back` says so.
fn flip(back: bool, n: usize, i: usize) -> usize
    requires { i < n }
    ensures { result ≡ flipped back n i }
{
    if back { n - 1 - i } else { i }
}

// The least of so many places from one on, counted from the other end where `back` says so.
fn begin(back: bool, n: usize, first: usize, count: usize) -> usize
    requires { first + count ≤ n }
    ensures { result ≡ cond back (n - first - count) first }
{
    if back { n - first - count } else { first }
}

// Moves the bits of `up` up by so many places, and as many above them down; those of `stay` keep their place.
fn swap(block: u64, stay: u64, up: u64, by: u32) -> u64
    requires { by < 64 }
    ensures { result ≡ swapped block stay up by }
{
    (block & stay) | ((block & up) << by) | ((block >> by) & up)
}

// Makes the rows of a block of eight by eight dots its columns.
fn transpose(block: u64) -> u64
    ensures { (i j : ℕ) → i < 8 → j < 8 → block_dot result i j ≡ block_dot block j i }
{
    let ones = swap(block, 0xAA55_AA55_AA55_AA55, 0x00AA_00AA_00AA_00AA, 7);
    let twos = swap(ones, 0xCCCC_3333_CCCC_3333, 0x0000_CCCC_0000_CCCC, 14);
    swap(twos, 0xF0F0_F0F0_0F0F_0F0F, 0x0000_0000_F0F0_F0F0, 28)
}

// A column of bytes of a picture. For one quarter its rows are taken from the bottom; for three, the rows that come of it are.
#[derive(Clone, Copy)]
pub struct Column<'a> {
    pub picture: Picture<'a>,
    pub up: bool,
    pub at: usize,
    ghost inside: { at < row_size picture.width },
}

// A column is handed on by value: behind a reference its parts would be read anew after each byte that is written.
impl Column<'_> {
    ghost use Rattle.turning.specs.Columns.{column_block, SameColumn, FitsTurned, BlockPut, Done};

    // The block of the rows from one on, so many; white where there are no eight.
    #[inline(always)]
    fn gather(self, first: usize, count: usize) -> u64
        requires { (first < self.picture.height) × (count ≡ min 8 (self.picture.height - first)) }
        ensures { result ≡ column_block self.entry first }
    {
        let n = self.picture.row_size();
        let top = begin(self.up, self.picture.height, first, count);
        let mut bytes = [0u8; 8];
        for i in 0..count {
            bytes[i] = self.picture.bytes[(top + flip(self.up, count, i)) * n + self.at];
        }
        u64::from_be_bytes(bytes)
    }

    // That of the last rows, apart from the code for eight, which is quicker so.
    #[inline(never)]
    fn gather_edge(&self, first: usize) -> u64
        requires { (first < self.now.picture.height) × (self.now.picture.height ≤ first + 8) }
        ensures { result ≡ column_block self.now first }
    {
        (*self).gather(first, self.picture.height - first)
    }

    // The block of the rows from one on; `kept` is the column where it stands in memory, which the code for an edge takes.
    #[inline(always)]
    fn gather_block(self, kept: &Column<'_>, first: usize) -> u64
        requires { SameColumn kept.now self × (first < self.picture.height) }
        ensures { result ≡ column_block self.entry first }
    {
        if self.picture.height - first < 8 {
            return kept.gather_edge(first);
        }
        self.gather(first, 8)
    }

    // Writes the first bytes of a block, one into each of the rows that come of so many columns of dots.
    #[inline(always)]
    fn scatter(self, block: u64, out: &mut [u8], place: usize, count: usize)
        requires { (place < row_size self.picture.height) × (self.at * 8 + count ≤ self.picture.width) × (count ≤ 8) × FitsTurned self out.old }
        ensures { BlockPut self.entry block place count out.old out.new }
    {
        let m = self.picture.column_size();
        let top = begin(!self.up, self.picture.width, self.at * 8, count);
        let bytes = block.to_be_bytes();
        for i in 0..count {
            out[(top + flip(!self.up, count, i)) * m + place] = bytes[i];
        }
    }

    // Writes those of the last column, apart from the code for eight.
    #[inline(never)]
    fn scatter_edge(&self, block: u64, out: &mut [u8], place: usize)
        requires { (place < row_size self.now.picture.height) × (self.now.picture.width ≤ self.now.at * 8 + 8) × FitsTurned self.now out.old }
        ensures { BlockPut self.now block place 8 out.old out.new }
    {
        (*self).scatter(block, out, place, self.picture.width - self.at * 8);
    }

    // Writes the bytes of a block into one place of each of the rows that come of the column: eight, or fewer at the edge.
    #[inline(always)]
    fn scatter_block(self, kept: &Column<'_>, block: u64, out: &mut [u8], place: usize)
        requires { SameColumn kept.now self × (place < row_size self.picture.height) × FitsTurned self out.old }
        ensures { BlockPut self.entry block place 8 out.old out.new }
    {
        if self.picture.width - self.at * 8 < 8 {
            kept.scatter_edge(block, out, place);
        } else {
            self.scatter(block, out, place, 8);
        }
    }

    // Turns the column.
    #[inline(always)]
    fn turn(self, kept: &Column<'_>, out: &mut [u8])
        requires { SameColumn kept.now self × FitsTurned self out.old }
        ensures { Done self.entry (self.entry.at * 8) out.old → Done self.entry (self.entry.at * 8 + 8) out.new }
    {
        for place in 0..self.picture.column_size() {
            let block = transpose(self.gather_block(kept, place * 8));
            self.scatter_block(kept, block, out, place);
        }
    }

    // Turns the column for one quarter. Where code is made for one direction alone, no place of a row hangs on a test. It stands apart from its caller,
    // which would then need more stack.
    #[inline(never)]
    fn turn_up(self, out: &mut [u8])
        requires { (self.up ≡ true) × FitsTurned self out.old }
        ensures { Done self.entry (self.entry.at * 8) out.old → Done self.entry (self.entry.at * 8 + 8) out.new }
    {
        let Column { picture, at, .. } = self;
        let kept = &self;
        Column {
            picture,
            up: true,
            at,
        }
        .turn(kept, out);
    }

    // The same for three quarters.
    #[inline(never)]
    fn turn_down(self, out: &mut [u8])
        requires { (self.up ≡ false) × FitsTurned self out.old }
        ensures { Done self.entry (self.entry.at * 8) out.old → Done self.entry (self.entry.at * 8 + 8) out.new }
    {
        let Column { picture, at, .. } = self;
        let kept = &self;
        Column {
            picture,
            up: false,
            at,
        }
        .turn(kept, out);
    }
}

// Turns a picture by a quarter, or by three quarters where not `up`.
pub(crate) fn quarter_turn(picture: Picture<'_>, out: &mut [u8], up: bool)
    requires { length out.old ≡ picture_size picture.height picture.width }
    ensures { out.new ≡ turned (cond up 1 3) picture.entry.width picture.entry.height picture.entry.bytes.now }
{
    for at in 0..picture.row_size() {
        let column = Column { picture, up, at };
        if up {
            column.turn_up(out);
        } else {
            column.turn_down(out);
        }
    }
}
