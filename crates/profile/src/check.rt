// The check of one font against the profile, and its write-out on the condition that it meets it.
ghost use Rattle.std.specs.Prelude.{◌≡◌};
ghost use Rattle.stream.specs.Written.{written_of};
ghost use Rattle.profile.specs.Profile.{unchecked, checked_as, checking_profile, writing_profiled};
ghost use Rattle.profile.specs.Pass.{as_told};

use crate::pass::{BrokenRule, broken_among};
use form::seek;
use refusals::Refused;
use stream::write;

// What checking answers to C: document 01's refusal number, the first broken rule, and the lowest code that breaks it.
#[repr(C)]
#[derive(Clone, Copy)]
pub struct ProfileChecked {
    pub refusal: u32,
    pub rule: u32,
    pub code: u32,
}

// A refusal answers 0 for every other number.
fn unchecked(refusal: u32) -> ProfileChecked
    ensures { result ≡ unchecked refusal }
{
    ProfileChecked {
        refusal,
        rule: 0,
        code: 0,
    }
}

// "'Meets the profile' (rule 0, code 0)", or the first broken rule and the lowest code that breaks it.
fn checked_as(b: Option<BrokenRule>) -> ProfileChecked
    ensures { result ≡ checked_as (as_told b) }
{
    match b {
        Some(b) => ProfileChecked {
            refusal: 0,
            rule: u32::from(b.rule),
            code: b.code,
        },
        None => ProfileChecked {
            refusal: 0,
            rule: 0,
            code: 0,
        },
    }
}

// Checks 1, 2, 6.
pub fn check_profile(s: &[u8], font: u32) -> ProfileChecked
    ensures { result ≡ checking_profile font s.now }
{
    match seek::seek_font(s, font) {
        Err(r) => unchecked(u32::from(r)),
        Ok(p) => checked_as(broken_among(s, p.lo, p.hi)),
    }
}

// Writes a font that meets the profile, and answers its length. Checks 1, 2, 6, 14, 12.
pub fn write_profiled(s: &[u8], out: &mut [u8], font: u32) -> Result<u32, Refused>
    ensures { written_of result out.new ≡ writing_profiled font s.now out.old }
{
    let p = seek::seek_font(s, font)?;
    if broken_among(s, p.lo, p.hi).is_some() {
        return Err(Refused::OutsideProfile);
    }
    write::write_found(s, out, p.lo, p.hi)
}
