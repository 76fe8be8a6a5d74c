// The two numbers that a font's record holds: how many characters the font has, and how many data bytes they keep together.
ghost use Rattle.std.specs.Prelude.{◌≡◌, ◌+◌, ◌≤◌, length, drop};
ghost use Rattle.form.specs.Layout.{font_kept_at};
ghost use Rattle.form.specs.Model.{tally_in};

use crate::layout::{FONT_BYTES_AT, FONT_CHARACTERS_AT};
use crate::number;

#[derive(Clone, Copy, PartialEq, Eq)]
pub struct Tally {
    pub characters: usize,
    pub bytes: usize,
}

pub const NONE: Tally = Tally {
    characters: 0,
    bytes: 0,
};

// The numbers of the font whose record begins at a place.
pub fn tally_at(s: &[u8], at: usize) -> Tally
    requires { at + font_kept_at ≤ length s.now }
    ensures { result ≡ tally_in (drop at s.now) }
{
    Tally {
        characters: number::le16(s, at + FONT_CHARACTERS_AT),
        bytes: number::le32(s, at + FONT_BYTES_AT),
    }
}
