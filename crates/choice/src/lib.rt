// The choice of a font.
#![tactic(auto)]

ghost use Rattle.std.specs.Prelude.{◌≡◌, ℕ, ◌+◌, ◌*◌, ◌%◌, ◌^◌, ◌<◌, ◌≤◌, Bool, true, length, ◌==◌, nat_le, nat_lt, IfOk, Some};
ghost use Rattle.blocks.specs.Field.{byte, word, high_low as join_of};
ghost use Rattle.blocks.specs.Header.{header_bytes, style, typeface, resolution};
ghost use Rattle.form.specs.Records.{RecordPlace, Begun};
ghost use Rattle.form.specs.Fonts.{fonts_at, fonts_of};
ghost use Rattle.choice.specs.Request.{in_range};
ghost use Rattle.choice.specs.Fields.{as_bytes, is_fine, compared as compared_of, compared_pitch, compared_height};
ghost use Rattle.choice.specs.Steps.{pitch_test_limit, height_distance, in_mode, takes_part};
ghost use Rattle.choice.specs.Candidates.{candidates, of_both};
ghost use Rattle.choice.specs.Choosing.{choosing_among, choosing};
ghost use Rattle.choice.specs.Scores.{miss as miss_of, most_compared, pitch_base, pitch_number, height_bound, weight_base, weight_number, weight_score, major_of, minor_of, better_at, no_score, weighed_at, pass, score_answer, StandsAt, picked_choice, PickedAt};

use blocks::{field, header};
use form::kept_fonts::KeptFonts;
use form::records;
use refusals::Refused;

const ROMAN_8: u32 = 277;

// The highest that each number of a request may be, as far as a header's goes where it has a limit, and the lowest weight, in two's complement.
const LAST_SYMBOL_SET: u32 = header::LAST_SYMBOL_SET as u32;

const LAST_SPACING: u32 = header::LAST_SPACING as u32;

const HIGHEST_R: u32 = 57600;

const HIGHEST_H: u32 = 99975;

const LAST_STYLE: u32 = header::LAST_STYLE as u32;

const WEIGHT_LIMIT: u32 = field::WEIGHT_LIMIT as u32;

const LEAST_WEIGHT: u32 = 4294967295 - WEIGHT_LIMIT + 1;

const HIGHEST_TYPEFACE: u32 = 65535;

const LAST_ORIENTATION: u32 = header::LAST_ORIENTATION as u32;

// The resolutions of fonts, and the modes of requests.
const COARSE: u32 = header::COARSE_RESOLUTION as u32;

const FINE: u32 = header::FINE_RESOLUTION as u32;

// A font qualifies by its pitch up to this product.
const PITCH_TEST_LIMIT: u64 = 61440000;

// The parts of a quarter-dot that the extended bytes count; a quarter-dot of 600 dpi in hundredths of a point; the distance that still counts as 0.
const QUARTER_DOT_PARTS: u64 = 256;

const QUARTER_DOT: u64 = 3;

const QUARTER_POINT: u64 = 6400;

// The greatest number that can be compared for pitch or height, and a base above every number of the pitch.
const MOST_COMPARED: u64 = 33554430;

const PITCH_BASE: u64 = 2 * (MOST_COMPARED + 1);

// A base above every number of the weight.
const WEIGHT_BASE: u64 = 1024;

// The number of the steps up to pitch that stands for no font, above that of every font.
const NO_MAJOR: u64 = 4 * PITCH_BASE;

// What is asked for, as C lays it out and hands any numbers in. The weight is signed, as 32 bits in two's complement.
#[repr(C)]
#[derive(Clone, Copy)]
pub struct Request {
    pub symbol_set: u32,
    pub spacing: u32,
    pub pitch: u32,
    pub height: u32,
    pub style: u32,
    pub weight: u32,
    pub typeface: u32,
    pub orientation: u32,
    pub mode: u32,
}

// The font that is chosen: whether the soft store holds it, else the cartridge, and its number.
#[derive(Clone, Copy, Debug, PartialEq, Eq)]
pub struct Chosen {
    pub soft: bool,
    pub number: u32,
}

// A font's numbers for the steps, of which the least is chosen: those up to pitch, those from height on, the font number; and whether the soft store holds it.
#[derive(Clone, Copy)]
struct Score {
    major: u64,
    minor: u64,
    number: u32,
    soft: bool,
}

// The best of all fonts up to here, and where its kept bytes stand in the store that holds it.
#[derive(Clone, Copy)]
struct BestSoFar {
    best: Score,
    kept: usize,
}

// The font that is chosen from two stores, and where its kept bytes stand in the store that holds it.
#[derive(Clone, Copy, Debug, PartialEq, Eq)]
pub struct Picked {
    pub chosen: Chosen,
    pub kept: usize,
}

// A kept byte.
fn kept_byte(f: &[u8], i: usize) -> u32
    requires { i < length f.now }
    ensures { (result ≡ byte (as_bytes f.now) i) × (result < 256) }
{
    u32::from(f[i])
}

// A kept number of two bytes, by the places of the high one and of the low one.
fn kept_number(f: &[u8], high: usize, low: usize) -> u32
    requires { (high < length f.now) × (low < length f.now) }
    ensures { (result ≡ join_of (byte (as_bytes f.now) high) (byte (as_bytes f.now) low)) × (result ≤ 65535) }
{
    u32::from(u16::from_be_bytes([f[high], f[low]]))
}

// A kept field of two bytes.
fn kept_word(f: &[u8], at: usize) -> u32
    requires { at + 1 < length f.now }
    ensures { (result ≡ word (as_bytes f.now) at) × (result ≤ 65535) }
{
    kept_number(f, at, at + 1)
}

fn style_of(f: &[u8]) -> u32
    requires { length f.now ≡ header_bytes }
    ensures { result ≡ style (as_bytes f.now) }
{
    kept_number(f, header::STYLE_HIGH_AT, header::STYLE_LOW_AT)
}

fn typeface_of(f: &[u8]) -> u32
    requires { length f.now ≡ header_bytes }
    ensures { result ≡ typeface (as_bytes f.now) }
{
    kept_number(f, header::TYPEFACE_HIGH_AT, header::TYPEFACE_LOW_AT)
}

// Whether a font is one of 600 dpi.
fn is_fine(f: &[u8]) -> bool
    requires { length f.now ≡ header_bytes }
    ensures { (p : Bool) (n : ℕ) → result ≡ is_fine (record { soft = p; number = n; kept = f.now }) }
{
    kept_word(f, header::X_RESOLUTION_AT) == FINE
}

// The number that is compared, by a field and its extended byte: one of 300 dpi counts twice.
fn compared(f: &[u8], at: usize, extended: usize) -> u64
    requires { (length f.now ≡ header_bytes) × (at + 1 < length f.now) × (extended < length f.now) }
    ensures { (result ≡ compared_of (resolution (as_bytes f.now)) (word (as_bytes f.now) at) (byte (as_bytes f.now) extended)) × (result ≤ most_compared) }
{
    let n = QUARTER_DOT_PARTS * u64::from(kept_word(f, at)) + u64::from(kept_byte(f, extended));
    if is_fine(f) { n } else { 2 * n }
}

// The number that is compared for pitch.
fn compared_pitch(f: &[u8]) -> u64
    requires { length f.now ≡ header_bytes }
    ensures { ((w : Bool) (n : ℕ) → result ≡ compared_pitch (record { soft = w; number = n; kept = f.now })) × (result ≤ most_compared) }
{
    compared(f, header::PITCH_AT, header::PITCH_EXTENDED_AT)
}

// The number that is compared for height.
fn compared_height(f: &[u8]) -> u64
    requires { length f.now ≡ header_bytes }
    ensures { ((p : Bool) (n : ℕ) → result ≡ compared_height (record { soft = p; number = n; kept = f.now })) × (result ≤ most_compared) }
{
    compared(f, header::HEIGHT_AT, header::HEIGHT_EXTENDED_AT)
}

// 0 for a match.
fn miss(hit: bool) -> u64
    ensures { (result ≡ miss_of hit) × (result < 2) }
{
    u64::from(!hit)
}

// The number of the pitch, from whether the font is fixed, the R asked for and the font's pitch.
fn pitch_number(fixed: bool, r: u32, p: u64) -> u64
    requires { p ≤ most_compared }
    ensures { (result ≡ pitch_number fixed (nat_le (r * p) pitch_test_limit) p) × (result < pitch_base) }
{
    if fixed {
        if u64::from(r) * p <= PITCH_TEST_LIMIT {
            MOST_COMPARED - p
        } else {
            MOST_COMPARED + 1 + p
        }
    } else {
        0
    }
}

// The number of the height, from the height asked for and the font's.
fn height_number(asked: u32, h: u64) -> u64
    requires { h ≤ most_compared }
    ensures { (result ≡ height_distance asked h) × (result < height_bound) }
{
    let a = QUARTER_DOT_PARTS * u64::from(asked);
    let d = a.abs_diff(QUARTER_DOT * h);
    if d <= QUARTER_POINT { 0 } else { d }
}

// The number of the weight, from the weight asked for and the font's, each with 128 added.
fn weight_number(a: u32, w: u32) -> u32
    requires { w < 256 }
    ensures { (result ≡ weight_number (a == w) (nat_le 128 a) (nat_lt a w) (nat_lt w a) w) × (result < weight_base) }
{
    if a == w {
        return 0;
    }
    if 128 <= a {
        if a < w { 1 + w } else { 1 + (256 + (255 - w)) }
    } else {
        if w < a { 1 + (255 - w) } else { 1 + (256 + w) }
    }
}

// The weight asked for with 128 added, a number that rises with the weight.
fn raised_request(weight: u32) -> u32
    ensures { (result ≡ (weight + 128) % 2 ^ 32) × (weight < 2 ^ 32) }
{
    weight.wrapping_add(128)
}

// The number of the weight of a font.
fn weight_of(f: &[u8], r: Request) -> u64
    requires { (length f.now ≡ header_bytes) × (in_range r ≡ true) }
    ensures { ((p : Bool) (n : ℕ) → result ≡ weight_score r (record { soft = p; number = n; kept = f.now })) × (result < weight_base) }
{
    let kept = (kept_byte(f, header::STROKE_WEIGHT_AT) + 128) % 256;
    u64::from(weight_number(raised_request(r.weight), kept))
}

// The steps up to pitch, for a font that takes part.
fn major_of(f: &[u8], r: Request) -> u64
    requires { length f.now ≡ header_bytes }
    ensures { (p : Bool) (n : ℕ) → result ≡ major_of r (record { soft = p; number = n; kept = f.now }) }
{
    let set = miss(kept_word(f, header::SYMBOL_SET_AT) == r.symbol_set);
    let fixed = kept_byte(f, header::SPACING_AT) == 0;
    let spacing = miss(fixed == (r.spacing == 0));
    let pitch = pitch_number(fixed, r.pitch, compared_pitch(f));
    (set * 2 + spacing) * PITCH_BASE + pitch
}

// The steps from height on, up to orientation.
fn minor_of(f: &[u8], soft: bool, r: Request) -> u64
    requires { (length f.now ≡ header_bytes) × (in_range r ≡ true) }
    ensures { (n : ℕ) → result ≡ minor_of r (record { soft = soft; number = n; kept = f.now }) }
{
    let height = height_number(r.height, compared_height(f));
    let style = miss(style_of(f) == r.style);
    let weight = weight_of(f, r);
    let typeface = miss(typeface_of(f) == r.typeface);
    let resolution = miss(is_fine(f));
    let orientation = miss(kept_byte(f, header::ORIENTATION_AT) == r.orientation);
    let store = miss(soft);
    let looks = ((height * 2 + style) * WEIGHT_BASE + weight) * 2 + typeface;
    ((looks * 2 + resolution) * 2 + store) * 2 + orientation
}

// The one of the two that comes first, with the place where its kept bytes stand; the best so far, where they are level.
fn better(b: BestSoFar, s: Score, kept: usize) -> BestSoFar
    ensures { result ≡ better_at b s kept }
{
    let best = b.best;
    if (s.major, s.minor, s.number) < (best.major, best.minor, best.number) {
        BestSoFar { best: s, kept }
    } else {
        b
    }
}

// Whether the mode lets a font take part.
fn in_mode(f: &[u8], r: Request) -> bool
    requires { length f.now ≡ header_bytes }
    ensures { (p : Bool) (n : ℕ) → result ≡ in_mode r (record { soft = p; number = n; kept = f.now }) }
{
    !((r.mode == COARSE) & is_fine(f))
}

// Whether a font takes part.
fn takes_part(f: &[u8], r: Request) -> bool
    requires { length f.now ≡ header_bytes }
    ensures { (p : Bool) (n : ℕ) → result ≡ takes_part r (record { soft = p; number = n; kept = f.now }) }
{
    let set = kept_word(f, header::SYMBOL_SET_AT);
    ((set == r.symbol_set) | (set == ROMAN_8)) & in_mode(f, r)
}

// The best so far after one more font, whose kept bytes f are and stand at a place.
fn weigh(b: BestSoFar, f: &[u8], soft: bool, number: u32, kept: usize, r: Request) -> BestSoFar
    requires { (length f.now ≡ header_bytes) × (in_range r ≡ true) }
    ensures { result ≡ weighed_at r b (record { soft = soft; number = number; kept = f.now }) kept }
{
    if takes_part(f, r) {
        let major = major_of(f, r);
        let best = b.best;
        if best.major < major {
            return b;
        }
        let minor = minor_of(f, soft, r);
        better(
            b,
            Score {
                major,
                minor,
                number,
                soft,
            },
            kept,
        )
    } else {
        b
    }
}

// No font so far.
fn nothing(soft: bool) -> BestSoFar
    ensures { result.best ≡ no_score soft }
{
    BestSoFar {
        best: Score {
            major: NO_MAJOR,
            minor: 0,
            number: 0,
            soft,
        },
        kept: 0,
    }
}

// The best of the fonts from a place of a store on, in one pass.
fn scan(s: &[u8], from: usize, soft: bool, r: Request) -> BestSoFar
    requires { RecordPlace s.now from × (in_range r ≡ true) }
    ensures { (result.best ≡ pass r (no_score soft) (candidates soft (fonts_at s.now from))) × StandsAt s.now soft result.best result.kept }
{
    let mut b = nothing(soft);
    for f in KeptFonts::starting_at(s, from) {
        b = weigh(b, f.kept, soft, f.number, f.kept_at, r);
    }
    b
}

// Whether every number of a request is within its range.
fn in_range(r: Request) -> bool
    ensures { result ≡ in_range r }
{
    let weight = (r.weight <= WEIGHT_LIMIT) | (LEAST_WEIGHT <= r.weight);
    let mode = (r.mode == COARSE) | (r.mode == FINE);
    (r.symbol_set <= LAST_SYMBOL_SET)
        & (r.spacing <= LAST_SPACING)
        & (r.pitch <= HIGHEST_R)
        & (r.height <= HIGHEST_H)
        & (r.style <= LAST_STYLE)
        & weight
        & (r.typeface <= HIGHEST_TYPEFACE)
        & (r.orientation <= LAST_ORIENTATION)
        & mode
}

// The answer, from the best of all fonts.
fn answer(best: Score) -> Result<Chosen, Refused>
    ensures { result ≡ score_answer best }
{
    if best.major == NO_MAJOR {
        return Err(Refused::NoneToChoose);
    }
    Ok(Chosen {
        soft: best.soft,
        number: best.number,
    })
}

// The choice on a buffer that is known to be a store, whose fonts begin at a place: for many requests it is checked once.
pub fn choose_among(s: &[u8], from: usize, r: Request) -> Result<Chosen, Refused>
    requires { Begun s.now (Some from) }
    ensures { result ≡ choosing_among (candidates true (fonts_of s.now)) r }
{
    if !in_range(r) {
        return Err(Refused::OutOfRange);
    }
    let best = scan(s, from, true, r);
    answer(best.best)
}

// The font that is chosen among the kept fonts of a store. It makes the pass itself: through `choose_among` the request and the store
// would be copied once more, which a store of one font shows.
pub fn choose(s: &[u8], r: Request) -> Result<Chosen, Refused>
    ensures { result ≡ choosing s.now r }
{
    let from = records::begin_records(s).ok_or(Refused::NotStore)?;
    if !in_range(r) {
        return Err(Refused::OutOfRange);
    }
    let best = scan(s, from, true, r);
    answer(best.best)
}

// The choice on two buffers that are known to be stores, whose fonts begin at these places: the better of the best of each.
pub fn choose_among_two(
    soft: &[u8],
    soft_from: usize,
    cartridge: &[u8],
    cartridge_from: usize,
    r: Request,
) -> Result<Picked, Refused>
    requires { Begun soft.now (Some soft_from) × Begun cartridge.now (Some cartridge_from) }
    ensures chosen { picked_choice result ≡ choosing_among (of_both (fonts_of soft.now) (fonts_of cartridge.now)) r }
    ensures stands { IfOk result (PickedAt soft.now cartridge.now) }
{
    if !in_range(r) {
        return Err(Refused::OutOfRange);
    }
    let a = scan(soft, soft_from, true, r);
    let b = scan(cartridge, cartridge_from, false, r);
    let both = better(a, b.best, b.kept);
    let chosen = answer(both.best)?;
    Ok(Picked {
        chosen,
        kept: both.kept,
    })
}
