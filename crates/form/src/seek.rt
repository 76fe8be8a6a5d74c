// Seeking a kept font or a kept character: its places, or the refusal that a call on it answers.
ghost use Rattle.std.specs.Prelude.{◌≡◌};
ghost use Rattle.refusals.specs.Refusals.{numbered_result};
ghost use Rattle.form.specs.Checks.{numbered};
ghost use Rattle.form.specs.Walk.{sought_font, sought_character};

use crate::layout::{LAST_CODE_ASKED, LAST_FONT_ASKED};
use crate::walk;
use crate::walk::Places;
use refusals::Refused;

// Checks 1, 2, 6.
pub fn seek_font(s: &[u8], font: u32) -> Result<Places, Refused>
    ensures { numbered_result result ≡ sought_font font s.now }
{
    let p = walk::inspect(s, font as usize, 0).ok_or(Refused::NotStore)?;
    if LAST_FONT_ASKED < font {
        return Err(Refused::OutOfRange);
    }
    walk::look_up_font(p).ok_or(Refused::NoFont)
}

// A font number and a code within range.
pub fn in_range(font: u32, code: u32) -> bool
    ensures { result ≡ numbered font code }
{
    (font <= LAST_FONT_ASKED) & (code <= LAST_CODE_ASKED)
}

// Checks 1, 2, 6, 7.
pub fn seek_character(s: &[u8], font: u32, code: u32) -> Result<Places, Refused>
    ensures { numbered_result result ≡ sought_character font code s.now }
{
    let p = walk::inspect(s, font as usize, code as usize + 1).ok_or(Refused::NotStore)?;
    if !in_range(font, code) {
        return Err(Refused::OutOfRange);
    }
    let p = walk::look_up_font(p).ok_or(Refused::NoFont)?;
    walk::look_up_character(p).ok_or(Refused::NoCharacter)
}
