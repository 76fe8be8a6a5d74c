// Downloading a character block: a first block replaces a character of its code, a continuation joins what is kept of the open one.
ghost use Rattle.std.specs.Prelude.{◌≡◌, true, ◌++◌, ◌+◌, ◌≤◌, ◌<◌, length, take, drop};
ghost use Rattle.std.specs.Prelude.{Ok};
ghost use Rattle.blocks.specs.Character.{class, width, height, kept_first, character_length, kind_of, read_first, continuation_bytes, descriptor_bytes};
ghost use Rattle.pictures.specs.Size.{data_limit};
ghost use Rattle.blocks.specs.declared.character.Kind.TheVariants.{First};
ghost use Rattle.pictures.specs.Picture.{judge};
ghost use Rattle.form.specs.Layout.{last_code, last_font, mark_record};
ghost use Rattle.form.specs.Model.{held_of, is_unfinished, mark_in};
ghost use Rattle.form.specs.Walk.{Stands, Arriving, Fitting, Growing, Continued, kept_at, data_at, font_orientation};
ghost use Rattle.store.specs.Answer.{no_run, downloaded_of};
ghost use Rattle.store.specs.Download.{names, downloading_character};
ghost use Rattle.store.specs.Putting.{placed, putting_first, putting_more, putting_block};

use blocks::character;
use blocks::character::Kind;
use change::CharacterId;
use form::layout::{
    CHARACTER_KEPT_AT, CHARACTER_RECORD, CONTINUATION_BYTES, DATA_LIMIT, DESCRIPTOR_BYTES,
    FONT_ORIENTATION_AT,
};
use form::walk::Places;
use form::{seek, walk};
use pictures::picture;
use pictures::runs::PastWidth;

// A run past its row's end: the picture row being read, the dots filled before it, and the run; all 0 where there was none.
#[repr(C)]
#[derive(Clone, Copy, Default)]
pub struct BadRun {
    pub row: u32,
    pub filled: u32,
    pub run: u32,
}

// The answer to a character block.
#[repr(C)]
#[derive(Clone, Copy)]
pub struct Downloaded {
    pub refusal: u32,
    pub bad: BadRun,
}

// An answer that tells no run.
pub(crate) fn without_run(refusal: u32) -> Downloaded
    ensures { result ≡ record { refusal = refusal; bad = no_run } }
{
    let bad = BadRun {
        row: 0,
        filled: 0,
        run: 0,
    };
    Downloaded { refusal, bad }
}

// Refused 8.
fn past_width(past: PastWidth) -> Downloaded
    ensures { result ≡ record { refusal = 8; bad = record { row = past.row; filled = past.filled; run = past.run } } }
{
    let bad = BadRun {
        row: u32::from(past.row),
        filled: u32::from(past.filled),
        run: u32::from(past.run),
    };
    Downloaded { refusal: 8, bad }
}

// The data of a first block.
fn judge_block(block: &[u8]) -> Result<Option<usize>, PastWidth>
    requires { descriptor_bytes ≤ length block.now }
    ensures { result ≡ judge (class block.now) (width block.now) (height block.now) (drop descriptor_bytes block.now) }
{
    picture::judge_first(
        character::class(block),
        character::width(block),
        character::height(block),
        &block[DESCRIPTOR_BYTES..],
    )
}

// The data kept of a character with the descriptor h, and then a continuation's.
fn judge_more(h: &[u8], kept: &[u8], block: &[u8]) -> Result<Option<usize>, PastWidth>
    requires { (length h.now ≡ descriptor_bytes) × (continuation_bytes ≤ length block.now) }
    ensures { result ≡ judge (class h.now) (width h.now) (height h.now) (kept.now ++ drop continuation_bytes block.now) }
{
    picture::judge_joined(
        character::class(h),
        character::width(h),
        character::height(h),
        kept,
        &block[CONTINUATION_BYTES..],
    )
}

// Places an accepted first block with n bytes of its data, or removes the font where there is no room.
fn place_first(
    s: &mut [u8],
    p: Places,
    id: CharacterId,
    block: &[u8],
    n: usize,
    marked: bool,
) -> Downloaded
    requires n_le_data_limit { (n ≤ data_limit) × (descriptor_bytes + n ≤ length block.now) × Fitting id.font id.code (kept_first block.now) (take n (drop descriptor_bytes block.now)) s.old p }
    requires marked_value { marked ≡ is_unfinished (held_of (kept_first block.now) (take n (drop descriptor_bytes block.now))) }
    ensures value { result ≡ downloaded_of (placed id.font id.code (kept_first block.now) (take n (drop descriptor_bytes block.now)) s.old) }
    ensures s_after { s.new ≡ (placed id.font id.code (kept_first block.now) (take n (drop descriptor_bytes block.now)) s.old).bytes }
{
    let from = p.from;
    let old = p.to - from;
    let used = p.used;
    if s.len() < used - old + (CHARACTER_RECORD + n) {
        change::cut_font(s, p.lo, p.hi, used, id.font);
        return without_run(10);
    }
    change::splice(s, from, old, used, CHARACTER_RECORD + n);
    change::write_character(s, from, id, block, n);
    change::recount(s, p.lo, old, CHARACTER_RECORD + n);
    change::mark_character(s, marked.then_some(id));
    without_run(0)
}

// Places n more bytes of a continuation behind the data of its character, or removes the font where there is no room.
fn place_more(
    s: &mut [u8],
    p: Places,
    id: CharacterId,
    block: &[u8],
    n: usize,
    marked: bool,
) -> Downloaded
    requires n_in_bounds { (continuation_bytes + n ≤ length block.now) × Growing id.font id.code (take n (drop continuation_bytes block.now)) s.old p }
    requires marked_value { marked ≡ is_unfinished (held_of (kept_at s.old p) (data_at s.old p ++ take n (drop continuation_bytes block.now))) }
    ensures value { result ≡ downloaded_of (placed id.font id.code (kept_at s.old p) (data_at s.old p ++ take n (drop continuation_bytes block.now)) s.old) }
    ensures s_after { s.new ≡ (placed id.font id.code (kept_at s.old p) (data_at s.old p ++ take n (drop continuation_bytes block.now)) s.old).bytes }
{
    let from = p.from;
    let old = p.to - from;
    let used = p.used;
    if s.len() < used + n {
        change::cut_font(s, p.lo, p.hi, used, id.font);
        return without_run(10);
    }
    change::splice(s, from, old, used, old + n);
    change::extend_character(s, from, old, block, n);
    change::recount(s, p.lo, old, old + n);
    change::mark_character(s, marked.then_some(id));
    without_run(0)
}

// An accepted first block: what is kept of its data goes into the store.
fn receive_first(s: &mut [u8], p: Places, id: CharacterId, block: &[u8]) -> Downloaded
    requires arriving { Arriving id.font id.code s.old p × (character_length block.now ≡ true) × (kind_of block.now ≡ First) }
    requires p_value { read_first block.now (font_orientation s.old p) ≡ Ok tt }
    ensures value { result ≡ downloaded_of (putting_first id.font id.code block.now s.old) }
    ensures s_after { s.new ≡ (putting_first id.font id.code block.now s.old).bytes }
{
    match judge_block(block) {
        Err(past) => past_width(past),
        Ok(Some(n)) => place_first(s, p, id, block, n, false),
        Ok(None) => place_first(s, p, id, block, block.len() - DESCRIPTOR_BYTES, true),
    }
}

fn put_first(s: &mut [u8], p: Places, id: CharacterId, block: &[u8]) -> Downloaded
    requires { Arriving id.font id.code s.old p × (character_length block.now ≡ true) × (kind_of block.now ≡ First) }
    ensures value { result ≡ downloaded_of (putting_first id.font id.code block.now s.old) }
    ensures s_after { s.new ≡ (putting_first id.font id.code block.now s.old).bytes }
{
    let at = p.lo + FONT_ORIENTATION_AT;
    match character::read_first(block, s[at]) {
        Err(r) => without_run(u32::from(r)),
        Ok(()) => receive_first(s, p, id, block),
    }
}

// Whether the open mark names this character.
fn is_open(s: &[u8], id: CharacterId) -> bool
    requires { mark_record ≤ length s.now }
    ensures { result ≡ names id.font id.code (mark_in s.now) }
{
    change::open_character(s) == Some(id)
}

// n more bytes of a continuation, where a character's data may not pass 32,768 bytes.
fn receive_more(
    s: &mut [u8],
    p: Places,
    id: CharacterId,
    block: &[u8],
    n: usize,
    marked: bool,
) -> Downloaded
    requires n_in_bounds { (continuation_bytes + n ≤ length block.now) × Arriving id.font id.code s.old p × (names id.font id.code (mark_in s.old) ≡ true) }
    requires continued { Continued s.old p block.now n marked }
    ensures value { result ≡ downloaded_of (putting_more id.font id.code block.now s.old) }
    ensures s_after { s.new ≡ (putting_more id.font id.code block.now s.old).bytes }
{
    if DATA_LIMIT < p.to - (p.from + CHARACTER_RECORD) + n {
        return without_run(9);
    }
    place_more(s, p, id, block, n, marked)
}

fn put_more(s: &mut [u8], p: Places, id: CharacterId, block: &[u8]) -> Downloaded
    requires { Arriving id.font id.code s.old p × (character_length block.now ≡ true) }
    ensures value { result ≡ downloaded_of (putting_more id.font id.code block.now s.old) }
    ensures s_after { s.new ≡ (putting_more id.font id.code block.now s.old).bytes }
{
    if !is_open(s, id) {
        return without_run(7);
    }
    let h = p.from + CHARACTER_KEPT_AT;
    let d = p.from + CHARACTER_RECORD;
    let to = p.to;
    match judge_more(&s[h..d], &s[d..to], block) {
        Err(past) => past_width(past),
        Ok(Some(k)) => receive_more(s, p, id, block, k - (to - d), false),
        Ok(None) => receive_more(s, p, id, block, block.len() - CONTINUATION_BYTES, true),
    }
}

// A block for a store that is one, with numbers in range and their places known.
pub(crate) fn put_block(s: &mut [u8], p: Places, font: u32, code: u32, block: &[u8]) -> Downloaded
    requires { Stands font (code + 1) s.old p × (font ≤ last_font) × (code ≤ last_code) }
    ensures value { result ≡ downloaded_of (putting_block font code block.now s.old) }
    ensures s_after { s.new ≡ (putting_block font code block.now s.old).bytes }
{
    if !character::length_allowed(block) {
        return without_run(3);
    }
    let Some(at) = walk::look_up_font(p) else {
        return without_run(6);
    };
    let id = CharacterId {
        font: font as usize,
        code: code as usize,
    };
    match character::kind_of(block) {
        Kind::First => put_first(s, at, id, block),
        Kind::Continuation => put_more(s, at, id, block),
        Kind::Unknown => without_run(4),
    }
}

// Downloads a character block.
pub fn download_character(s: &mut [u8], block: &[u8], font: u32, code: u32) -> Downloaded
    ensures value { result ≡ downloaded_of (downloading_character font code block.now s.old) }
    ensures s_after { s.new ≡ (downloading_character font code block.now s.old).bytes }
{
    let Some(p) = walk::inspect(s, font as usize, code as usize + 1) else {
        return without_run(1);
    };
    if !seek::in_range(font, code) {
        return without_run(2);
    }
    put_block(s, p, font, code, block)
}
