// The ones of bytes.
ghost use Rattle.std.specs.Prelude.{◌≡◌, ◌+◌, ◌*◌, ◌≤◌, ◌<◌, ◌^◌, length, take, drop};
ghost use Rattle.std.specs.Int.Count.{ones};
ghost use Rattle.pictures.specs.Size.{data_limit};
ghost use Rattle.blackdots.specs.Black.{ones_of};
ghost use Rattle.blackdots.specs.Counting.{ones_of_two, ones_said};

// Eight bytes as one number, which has the ones of all of them.
fn word(bytes: &[u8; 8]) -> u64
    ensures { ones result ≡ ones_of bytes.now }
{
    u64::from_le_bytes(*bytes)
}

// Fewer than eight bytes as one number, which has the ones of all of them: four, two and one, where there are so many. A loop over them that counts each
// took up to twice as long.
fn last_word(bytes: &[u8]) -> u64
    requires { length bytes.now < 8 }
    ensures { (ones result ≡ ones_of bytes.now) × (result < 2 ^ 56) }
{
    let mut joined = 0;
    let mut rest = bytes;
    if let Some((four, after)) = rest.split_first_chunk() {
        joined = u64::from(u32::from_le_bytes(*four));
        rest = after;
    }
    if let Some((two, after)) = rest.split_first_chunk() {
        joined = joined * 65536 + u64::from(u16::from_le_bytes(*two));
        rest = after;
    }
    if let Some(one) = rest.first() {
        joined = joined * 256 + u64::from(*one);
    }
    joined
}

// The ones of all bytes, eight bytes at a time.
fn ones_by_words(bytes: &[u8]) -> u32
    requires { length bytes.now ≤ data_limit }
    ensures { (result ≡ ones_of bytes.now) × (result ≤ 8 * length bytes.now) }
{
    let mut n = 0;
    let mut rest = bytes;
    while let Some((eight, after)) = rest.split_first_chunk::<8>() {
        n += word(eight).count_ones();
        rest = after;
    }
    n + last_word(rest).count_ones()
}

// The sum of three bits, in each of the places of a number or of two: its low bits and its high ones.
#[derive(Clone, Copy)]
pub struct Sum<T> {
    pub low: T,
    pub high: T,
}

fn add_three(a: u64, b: u64, c: u64) -> Sum<u64>
    ensures { ones result.low + 2 * ones result.high ≡ ones a + ones b + ones c }
{
    let one = a ^ b;
    Sum {
        low: one ^ c,
        high: (a & b) | (one & c),
    }
}

// Two numbers, with both of which the same is done: the compiler puts them into one wide register.
#[derive(Clone, Copy)]
pub struct TwoWords {
    pub first: u64,
    pub second: u64,
}

fn word_at(bytes: &[u8], at: usize) -> u64
    requires { at + 8 ≤ length bytes.now }
    ensures { ones result ≡ ones_of (take 8 (drop at bytes.now)) }
{
    word(bytes[at..].first_chunk().unwrap())
}

fn pair_at(bytes: &[u8], at: usize) -> TwoWords
    requires { at + 16 ≤ length bytes.now }
    ensures { ones_of_two result ≡ ones_of (take 16 (drop at bytes.now)) }
{
    TwoWords {
        first: word_at(bytes, at),
        second: word_at(bytes, at + 8),
    }
}

fn add_pairs(a: TwoWords, b: TwoWords, c: TwoWords) -> Sum<TwoWords>
    ensures { ones_of_two result.low + 2 * ones_of_two result.high ≡ ones_of_two a + ones_of_two b + ones_of_two c }
{
    let one = add_three(a.first, b.first, c.first);
    let two = add_three(a.second, b.second, c.second);
    Sum {
        low: TwoWords {
            first: one.low,
            second: two.low,
        },
        high: TwoWords {
            first: one.high,
            second: two.high,
        },
    }
}

// Thirty-two bytes more.
fn add_bytes(low: TwoWords, bytes: &[u8], at: usize) -> Sum<TwoWords>
    requires { at + 32 ≤ length bytes.now }
    ensures { ones_of_two result.low + 2 * ones_of_two result.high ≡ ones_of_two low + ones_of (take 32 (drop at bytes.now)) }
{
    add_pairs(low, pair_at(bytes, at), pair_at(bytes, at + 16))
}

// How many ones there are so far: eights of them, each half of a pair its own, and up to 7 in each of 128 places. In this order the compiler finds the pairs.
#[derive(Clone, Copy)]
pub struct Tallied {
    pub eights: TwoWords,
    pub ones: TwoWords,
    pub twos: TwoWords,
    pub fours: TwoWords,
}

fn count_more(n: TwoWords, x: TwoWords) -> TwoWords
    requires { n.first + n.second ≤ data_limit }
    ensures { (result.first + result.second ≡ n.first + n.second + ones_of_two x) × (ones_of_two x ≤ 128) }
{
    TwoWords {
        first: n.first + u64::from(x.first.count_ones()),
        second: n.second + u64::from(x.second.count_ones()),
    }
}

// The bits of each place are added, and counted only when they make eights: fewer steps than to count each number.
fn add_block(t: Tallied, block: &[u8]) -> Tallied
    requires { (length block.now ≡ 128) × (t.eights.first + t.eights.second ≤ data_limit) }
    ensures { (ones_said result ≡ ones_said t + ones_of block.now) × (result.eights.first + result.eights.second ≤ t.eights.first + t.eights.second + 128) }
{
    let first = add_bytes(t.ones, block, 0);
    let second = add_bytes(first.low, block, 32);
    let third = add_bytes(second.low, block, 64);
    let fourth = add_bytes(third.low, block, 96);
    let half = add_pairs(t.twos, first.high, second.high);
    let rest = add_pairs(half.low, third.high, fourth.high);
    let last = add_pairs(t.fours, half.high, rest.high);
    Tallied {
        eights: count_more(t.eights, last.high),
        ones: fourth.low,
        twos: rest.low,
        fours: last.low,
    }
}

fn count_pair(x: TwoWords) -> u32
    ensures { (result ≡ ones_of_two x) × (result ≤ 128) }
{
    x.first.count_ones() + x.second.count_ones()
}

fn total(t: Tallied) -> u32
    requires { t.eights.first + t.eights.second ≤ data_limit }
    ensures { (result ≡ ones_said t) × (result ≤ 8 * (t.eights.first + t.eights.second) + 896) }
{
    let eights = (t.eights.first + t.eights.second) as u32;
    let small = count_pair(t.ones) + 2 * count_pair(t.twos);
    small + 4 * count_pair(t.fours) + 8 * eights
}

// The ones of all bytes, where there are blocks of 128, from the last one to the first.
fn ones_in_blocks(bytes: &[u8]) -> u32
    requires { length bytes.now ≤ data_limit }
    ensures { result ≡ ones_of bytes.now }
{
    let none = TwoWords {
        first: 0,
        second: 0,
    };
    let mut t = Tallied {
        eights: none,
        ones: none,
        twos: none,
        fours: none,
    };
    let mut rest = bytes;
    while let Some((before, block)) = rest.split_last_chunk::<128>() {
        t = add_block(t, block);
        rest = before;
    }
    total(t) + ones_by_words(rest)
}

pub(crate) fn ones_in(bytes: &[u8]) -> u32
    requires { length bytes.now ≤ data_limit }
    ensures { result ≡ ones_of bytes.now }
{
    if bytes.len() < 128 {
        return ones_by_words(bytes);
    }
    ones_in_blocks(bytes)
}
