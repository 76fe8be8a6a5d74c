// Numbers of the store's records, low byte first, and bytes that are all 0.
ghost use Rattle.std.specs.Prelude.{◌≡◌, ◌+◌, ◌≤◌, ◌<◌, length, drop};
ghost use Rattle.form.specs.Num.{word_end, field, all_zero};

pub fn le16(s: &[u8], at: usize) -> usize
    requires { at + 2 ≤ length s.now }
    ensures { (result ≡ field 2 at s.now) × (result < word_end) }
{
    u16::from_le_bytes([s[at], s[at + 1]]) as usize
}

pub fn le32(s: &[u8], at: usize) -> usize
    requires { at + 4 ≤ length s.now }
    ensures { result ≡ field 4 at s.now }
{
    u32::from_le_bytes([s[at], s[at + 1], s[at + 2], s[at + 3]]) as usize
}

// Whether all bytes are 0. It has no early end, so that many bytes are tested at a time.
fn all_zeros(s: &[u8]) -> bool
    ensures { result ≡ all_zero s.now }
{
    let mut any = 0;
    for b in s {
        any |= *b;
    }
    any == 0
}

// How many bytes a machine reads at once.
const AT_ONCE: usize = 16;

// Whether all bytes from a place on are 0: those up to a multiple of that many, and the rest. A buffer mostly begins at one, and what is read at
// once is then nowhere parted between two lines of the machine's memory.
pub fn zeros(s: &[u8], at: usize) -> bool
    ensures { result ≡ all_zero (drop at s.now) }
{
    if s.len() <= at {
        return true;
    }
    let s = &s[at..];
    let (front, rest) = s.split_at(s.len().min(AT_ONCE - at % AT_ONCE));
    all_zeros(front) && all_zeros(rest)
}
