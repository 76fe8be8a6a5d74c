// The ones of class 1 data that lie beyond the width: in the last byte of each row.
ghost use Rattle.std.specs.Prelude.{◌≡◌, ℕ, ◌+◌, ◌*◌, ◌-◌, ◌%◌, ◌≤◌, ◌<◌, ◌^◌, length};
ghost use Rattle.std.specs.Int.Count.{ones};
ghost use Rattle.pictures.specs.Size.{data_limit};
ghost use Rattle.blackdots.specs.Counting.{overhang, ones_apart};

// A mask in each of eight bytes is this many times the mask.
const EACH_OF_EIGHT: u64 = 0x0101_0101_0101_0101;

// The last bytes of eight rows of n bytes, masked, as one number, which has the ones of all of them.
fn eight_masked(rows: &[u8], n: usize, mask: u8) -> u64
    requires { (0 < n) × (n ≤ data_limit) × (length rows.now ≡ 8 * n) }
    ensures { ones result ≡ ones_apart n mask rows.now (n - 1) 8 }
{
    let last = [
        rows[n - 1],
        rows[2 * n - 1],
        rows[3 * n - 1],
        rows[4 * n - 1],
        rows[5 * n - 1],
        rows[6 * n - 1],
        rows[7 * n - 1],
        rows[8 * n - 1],
    ];
    u64::from_le_bytes(last) & EACH_OF_EIGHT * u64::from(mask)
}

// Those of rows, one by one. What is left after whole rows has no last byte.
fn beyond_by_rows(rows: &[u8], n: usize, mask: u8) -> u32
    requires { (0 < n) × (n ≤ data_limit) × (length rows.now ≤ data_limit) }
    ensures { ((h pad : ℕ) → mask ≡ 2 ^ pad - 1 → length rows.now ≤ h * n → result ≡ overhang n pad rows.now h) × (result ≤ 8 * length rows.now) }
{
    let mut k = 0;
    let mut rest = rows;
    while n <= rest.len() {
        let (row, after) = rest.split_at(n);
        k += (row[n - 1] & mask).count_ones();
        rest = after;
    }
    k
}

// The same, eight rows at a time.
fn by_eights(rows: &[u8], n: usize, mask: u8) -> u32
    requires { (0 < n) × (n ≤ data_limit) × (length rows.now ≤ data_limit) }
    ensures { ((h pad : ℕ) → mask ≡ 2 ^ pad - 1 → length rows.now ≤ h * n → result ≡ overhang n pad rows.now h) × (result ≤ 8 * length rows.now) }
{
    let mut k = 0;
    let mut rest = rows;
    while 8 * n <= rest.len() {
        let (eight, after) = rest.split_at(8 * n);
        k += eight_masked(eight, n, mask).count_ones();
        rest = after;
    }
    k + beyond_by_rows(rest, n, mask)
}

// Those of all rows of n bytes. Fewer than eight rows are counted one by one, without the mask for eight.
pub(crate) fn ones_beyond(rows: &[u8], n: usize, mask: u8) -> u32
    requires { (0 < n) × (n ≤ data_limit) × (length rows.now ≤ data_limit) }
    ensures { ((h pad : ℕ) → mask ≡ 2 ^ pad - 1 → length rows.now ≤ h * n → result ≡ overhang n pad rows.now h) × (result ≤ 8 * length rows.now) }
{
    if rows.len() < 8 * n {
        return beyond_by_rows(rows, n, mask);
    }
    by_eights(rows, n, mask)
}

// The bits of a row's last byte that lie beyond the width.
pub(crate) fn beyond(width: u16) -> u8
    requires { 0 < width }
    ensures { result ≡ 2 ^ (8 - ((width - 1) % 8 + 1)) - 1 }
{
    ((256u16 >> ((width - 1) % 8 + 1)) - 1) as u8
}
