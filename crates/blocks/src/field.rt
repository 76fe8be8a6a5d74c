// Fields by offset, high byte first; signed numbers by their unsigned bits.
ghost use Rattle.std.specs.Prelude.{◌≡◌, ◌+◌, ◌<◌, length};
ghost use Rattle.blocks.specs.Field.{high_low, word, is_word, negative, signed_within, put_word, cap_extended, floor_word};
ghost use Rattle.blocks.specs.Header.{weight_limit};
ghost use Rattle.blocks.specs.Character.{offset_limit};

// A signed field goes from minus its limit up to it.
pub const WEIGHT_LIMIT: u8 = 7;

const OFFSET_LIMIT: u16 = 16384;

pub(crate) fn join(high: u8, low: u8) -> u16
    ensures { result ≡ high_low high low }
{
    u16::from_be_bytes([high, low])
}

// The 16-bit field at a place.
pub fn word(s: &[u8], at: usize) -> u16
    requires { at + 1 < length s.now }
    ensures { result ≡ word s.now at }
{
    join(s[at], s[at + 1])
}

// Whether the 16-bit field at a place is this number.
pub(crate) fn is_word(s: &[u8], at: usize, value: u16) -> bool
    requires { at + 1 < length s.now }
    ensures { result ≡ is_word at value s.now }
{
    word(s, at) == value
}

// A stroke weight within its limit.
pub(crate) fn weight_allowed(x: u8) -> bool
    ensures { result ≡ signed_within 8 weight_limit x }
{
    x.cast_signed().unsigned_abs() <= WEIGHT_LIMIT
}

// A left or top offset within its limit.
pub(crate) fn offset_allowed(n: u16) -> bool
    ensures { result ≡ signed_within 16 offset_limit n }
{
    n.cast_signed().unsigned_abs() <= OFFSET_LIMIT
}

// A 16-bit field that is, as a signed number, below 0.
pub fn is_negative(n: u16) -> bool
    ensures { result ≡ negative 16 n }
{
    n.cast_signed() < 0
}

// Puts a 16-bit number at a place.
pub(crate) fn put_word(s: &mut [u8], at: usize, value: u16)
    requires { at + 1 < length s.old }
    ensures { s.new ≡ put_word at value s.old }
{
    let [high, low] = value.to_be_bytes();
    s[at] = high;
    s[at + 1] = low;
}

// Makes the 16-bit field at a place at most a limit; where that cuts it, its extended byte is 0.
pub(crate) fn cap_extended(s: &mut [u8], at: usize, extended: usize, limit: u16)
    requires { (at + 1 < length s.old) × (extended < length s.old) }
    ensures { s.new ≡ cap_extended at extended limit s.old }
{
    if limit < word(s, at) {
        put_word(s, at, limit);
        s[extended] = 0;
    }
}

// Makes the 16-bit field at a place 0 if it is negative as a signed number.
pub(crate) fn floor_word(s: &mut [u8], at: usize)
    requires { at + 1 < length s.old }
    ensures { s.new ≡ floor_word at s.old }
{
    if is_negative(word(s, at)) {
        put_word(s, at, 0);
    }
}
