// The rules of the profile, and the tests of those that look at a character's kept bytes.
ghost use Rattle.std.specs.Prelude.{◌≡◌, ◌≤◌, length};
ghost use Rattle.blocks.specs.Header.{header_bytes};
ghost use Rattle.blocks.specs.Character.{descriptor_bytes};
ghost use Rattle.form.specs.Model.{held_of};
ghost use Rattle.profile.specs.Profile.{is_whole, left_inside, right_inside, height_inside, advances_by_pitch};
ghost use Rattle.profile.specs.Pass.{rule_number, number_or_8, broken_by};

use blocks::{character, field, header};
use pictures::picture;
use pictures::picture::Held;

// The seven rules, in document 02's order.
#[derive(Clone, Copy, Debug, PartialEq, Eq, PartialOrd, Ord)]
pub enum ProfileRule {
    TypeZero,
    FixedSpacing,
    CodesComplete,
    LeftInside,
    RightInside,
    HeightInside,
    PitchAdvance,
}

// Its number, as C is told it.
impl From<ProfileRule> for u32 {
    ghost from_gives = { λ r n. n ≡ rule_number r };

    fn from(r: ProfileRule) -> u32 {
        match r {
            ProfileRule::TypeZero => 1,
            ProfileRule::FixedSpacing => 2,
            ProfileRule::CodesComplete => 3,
            ProfileRule::LeftInside => 4,
            ProfileRule::RightInside => 5,
            ProfileRule::HeightInside => 6,
            ProfileRule::PitchAdvance => 7,
        }
    }
}

// A 16-bit field that is negative as a signed number stands for itself less this.
const WORD_END: u32 = 65536;

fn left_inside(h: &[u8], k: &[u8]) -> bool
    requires { descriptor_bytes ≤ length k.now }
    ensures { result ≡ left_inside h.now k.now }
{
    !field::is_negative(character::left_offset(k))
}

fn right_inside(h: &[u8], k: &[u8]) -> bool
    requires { (header_bytes ≤ length h.now) × (descriptor_bytes ≤ length k.now) }
    ensures { result ≡ right_inside h.now k.now }
{
    let left = character::left_offset(k);
    let right = u32::from(left) + u32::from(character::width(k));
    let cell = u32::from(header::cell_width(h));
    if field::is_negative(left) {
        right <= cell + WORD_END
    } else {
        right <= cell
    }
}

fn height_inside(h: &[u8], k: &[u8]) -> bool
    requires { (header_bytes ≤ length h.now) × (descriptor_bytes ≤ length k.now) }
    ensures { result ≡ height_inside h.now k.now }
{
    character::height(k) <= header::cell_height(h)
}

fn advances_by_pitch(h: &[u8], k: &[u8]) -> bool
    requires { (header_bytes ≤ length h.now) × (descriptor_bytes ≤ length k.now) }
    ensures { result ≡ advances_by_pitch h.now k.now }
{
    character::delta_x(k) == header::pitch(h)
}

// The first of the rules on a character's kept bytes that it breaks.
pub(crate) fn broken_by(h: &[u8], k: &[u8]) -> Option<ProfileRule>
    requires { (header_bytes ≤ length h.now) × (descriptor_bytes ≤ length k.now) }
    ensures { number_or_8 result ≡ broken_by h.now k.now }
{
    if !left_inside(h, k) {
        return Some(ProfileRule::LeftInside);
    }
    if !right_inside(h, k) {
        return Some(ProfileRule::RightInside);
    }
    if !height_inside(h, k) {
        return Some(ProfileRule::HeightInside);
    }
    if !advances_by_pitch(h, k) {
        return Some(ProfileRule::PitchAdvance);
    }
    None
}

// A character with the kept bytes k and the data d has all its rows.
pub(crate) fn is_whole(k: &[u8], d: &[u8]) -> bool
    requires { descriptor_bytes ≤ length k.now }
    ensures { result ≡ is_whole (held_of k.now d.now) }
{
    let held = picture::held_in(
        character::class(k),
        character::width(k),
        character::height(k),
        d,
    );
    matches!(held, Held::Whole)
}
