// Changes of a buffer: moving, clearing and writing bytes, and the one splice that every change of the record run is made of.
#![tactic(auto)]

ghost use Rattle.std.specs.Prelude.{◌≡◌, ◌+◌, ◌-◌, ◌≤◌, ◌<◌, ◌++◌, length, take, drop, replicate, cond};
ghost use Rattle.std.proofs.Math.Seq.{paste};
ghost use Rattle.blocks.specs.Header.{kept_header, own_bytes};
ghost use Rattle.blocks.specs.Character.{kept_first, continuation_bytes, descriptor_bytes};
ghost use Rattle.pictures.specs.Size.{data_limit};
ghost use Rattle.form.specs.Layout.{character_kept_at, character_record, font_characters_at, font_kept_at, font_record, least_store, mark_record};
ghost use Rattle.form.specs.Num.{low_first};
ghost use Rattle.form.specs.Model.{no_characters, tally_bytes, font_head, character_head, character_bytes, mark_in};
ghost use Rattle.change.specs.Put.{with_bytes};
ghost use Rattle.change.specs.Change.{spliced_at, tally_by, Recounting, recounted, mark_of, named_by, remarked, unmarked_for, unmarked_at};

use form::layout::{
    CHARACTER_KEPT_AT, CHARACTER_KIND, CHARACTER_RECORD, CODE_AT, CONTINUATION_BYTES,
    DESCRIPTOR_BYTES, FONT_BYTES_AT, FONT_CHARACTERS_AT, FONT_KEPT_AT, FONT_KIND, FONT_RECORD,
    KIND_AT, MARK_CODE_AT, MARK_FONT_AT, MARK_ON_AT, NUMBER_AT,
};
use form::tally::{NONE, Tally};
use form::{number, tally};

// A character by the number of its font and its code.
#[derive(Clone, Copy, PartialEq, Eq)]
pub struct CharacterId {
    pub font: usize,
    pub code: usize,
}

// Makes n bytes 0.
pub fn clear(s: &mut [u8], at: usize, n: usize)
    requires { at + n ≤ length s.old }
    ensures { s.new ≡ paste s.old at (replicate n 0) n }
{
    s[at..at + n].fill(0);
}

// Moves n bytes down by a font record's length, as where a font with no characters is taken out before others. Of this loop and of the next the compiler
// makes one block move, since the distance is a constant, and of `copy_within` none: a stream of falling fonts took 1.8 times as long with it.
fn font_down(s: &mut [u8], to: usize, n: usize)
    requires { to + font_record + n ≤ length s.old }
    ensures { s.new ≡ paste s.old to (drop (to + font_record) s.old) n }
{
    for i in 0..n {
        s[to + i] = s[to + FONT_RECORD + i];
    }
}

// Moves n bytes up by a font record's length, as each font does that is put before others.
fn font_up(s: &mut [u8], from: usize, n: usize)
    requires { from + font_record + n ≤ length s.old }
    ensures { s.new ≡ paste s.old (from + font_record) (drop from s.old) n }
{
    let mut i = n;
    while 0 < i {
        i -= 1;
        s[from + FONT_RECORD + i] = s[from + i];
    }
}

// Moves n bytes.
fn shift(s: &mut [u8], from: usize, to: usize, n: usize)
    requires { (from + n ≤ length s.old) × (to + n ≤ length s.old) }
    ensures { s.new ≡ paste s.old to (drop from s.old) n }
{
    if to == from + FONT_RECORD {
        font_up(s, from, n);
    } else if from == to + FONT_RECORD {
        font_down(s, to, n);
    } else if from != to {
        s.copy_within(from..from + n, to);
    }
}

// Gives the old bytes at `at` the length new: what is behind them up to `used` moves, and what that frees is made 0.
pub fn splice(s: &mut [u8], at: usize, old: usize, used: usize, new: usize)
    requires { (at + old ≤ used) × (used ≤ length s.old) × (used + new ≤ length s.old + old) }
    ensures { s.new ≡ spliced_at at old used new s.old }
{
    shift(s, at + old, at + new, used - (at + old));
    clear(s, used + new - old, old.saturating_sub(new));
}

// Writes the N lowest bytes of a number, low byte first.
pub fn put<const N: usize>(s: &mut [u8], at: usize, v: usize)
    requires { (N ≤ 8) × (at + N ≤ length s.old) }
    ensures { s.new ≡ with_bytes s.old at (low_first N v) }
{
    s[at..at + N].copy_from_slice(&v.to_le_bytes()[..N]);
}

// Writes the numbers of the font whose record begins at a place.
fn put_tally(s: &mut [u8], at: usize, t: Tally)
    requires { at + font_kept_at ≤ length s.old }
    ensures { s.new ≡ with_bytes s.old (at + font_characters_at) (tally_bytes t) }
{
    put::<2>(s, at + FONT_CHARACTERS_AT, t.characters);
    put::<4>(s, at + FONT_BYTES_AT, t.bytes);
}

// The characters and the data bytes of a character's record of len bytes, or of none.
fn tally_by(len: usize) -> Tally
    requires { (len ≡ 0 → ⊥) → character_record ≤ len }
    ensures { result ≡ tally_by len }
{
    if len == 0 {
        return NONE;
    }
    Tally {
        characters: 1,
        bytes: len - CHARACTER_RECORD,
    }
}

// Keeps the numbers of the font at a place true where a character's record of old bytes gives way to one of new bytes, 0 where there is none.
pub fn recount(s: &mut [u8], at: usize, old: usize, new: usize)
    requires { Recounting s.old at old new }
    ensures { s.new ≡ recounted at old new s.old }
{
    let held = tally::tally_at(s, at);
    let gone = tally_by(old);
    let added = tally_by(new);
    let after = Tally {
        characters: held.characters + added.characters - gone.characters,
        bytes: held.bytes + added.bytes - gone.bytes,
    };
    put_tally(s, at, after);
}

// Writes bytes.
pub fn copy(s: &mut [u8], at: usize, b: &[u8])
    requires { at + length b.now ≤ length s.old }
    ensures { s.new ≡ with_bytes s.old at b.now }
{
    s[at..at + b.len()].copy_from_slice(b);
}

// Makes the open mark name this character, or none.
pub fn mark_character(s: &mut [u8], named: Option<CharacterId>)
    requires { least_store ≤ length s.old }
    ensures { s.new ≡ remarked (mark_of named) s.old }
{
    let (on, font, code) = match named {
        Some(id) => (1, id.font, id.code),
        None => (0, 0, 0),
    };
    put::<2>(s, MARK_ON_AT, on);
    put::<2>(s, MARK_FONT_AT, font);
    put::<2>(s, MARK_CODE_AT, code);
}

// The character that the open mark names, if it names one.
pub fn open_character(s: &[u8]) -> Option<CharacterId>
    requires { mark_record ≤ length s.now }
    ensures { result ≡ named_by (mark_in s.now) }
{
    if number::le16(s, MARK_ON_AT) != 1 {
        return None;
    }
    Some(CharacterId {
        font: number::le16(s, MARK_FONT_AT),
        code: number::le16(s, MARK_CODE_AT),
    })
}

// Closes the open mark if it names a character of this font.
pub fn unmark_font(s: &mut [u8], font: usize)
    requires { mark_record ≤ length s.old }
    ensures { s.new ≡ unmarked_for font s.old }
{
    if let Some(id) = open_character(s) {
        if id.font == font {
            mark_character(s, None);
        }
    }
}

// Closes the open mark if it names this character.
pub fn unmark_character(s: &mut [u8], id: CharacterId)
    requires { mark_record ≤ length s.old }
    ensures { s.new ≡ unmarked_at id.font id.code s.old }
{
    if open_character(s) == Some(id) {
        mark_character(s, None);
    }
}

// Writes a font's record: its head, with no characters, and what is kept of an accepted block.
pub fn write_font(s: &mut [u8], at: usize, n: usize, block: &[u8])
    requires { (at + font_record ≤ length s.old) × (own_bytes block.now ≤ length block.now) }
    ensures { s.new ≡ with_bytes s.old at (font_head n no_characters ++ kept_header block.now) }
{
    put::<4>(s, at, FONT_RECORD);
    put::<2>(s, at + KIND_AT, FONT_KIND);
    put::<2>(s, at + NUMBER_AT, n);
    put_tally(s, at, NONE);
    let from = at + FONT_KEPT_AT;
    let to = at + FONT_RECORD;
    blocks::header::keep_header(block, &mut s[from..to]);
}

// Takes a font with its characters, from lo to hi, out of the records.
pub fn cut_font(s: &mut [u8], lo: usize, hi: usize, used: usize, font: usize)
    requires { (mark_record ≤ lo) × (lo ≤ hi) × (hi ≤ used) × (used ≤ length s.old) }
    ensures { s.new ≡ unmarked_for font (spliced_at lo (hi - lo) used 0 s.old) }
{
    splice(s, lo, hi - lo, used, 0);
    unmark_font(s, font);
}

// Writes the head of a character's record.
fn write_head(s: &mut [u8], at: usize, len: usize, id: CharacterId)
    requires { at + character_kept_at ≤ length s.old }
    ensures { s.new ≡ with_bytes s.old at (character_head len id.font id.code) }
{
    put::<4>(s, at, len);
    put::<2>(s, at + KIND_AT, CHARACTER_KIND);
    put::<2>(s, at + NUMBER_AT, id.font);
    put::<2>(s, at + CODE_AT, id.code);
}

// Writes the kept bytes of an accepted first block's descriptor at a place.
fn write_descriptor(s: &mut [u8], at: usize, block: &[u8])
    requires { (at + descriptor_bytes ≤ length s.old) × (descriptor_bytes ≤ length block.now) }
    ensures { s.new ≡ with_bytes s.old at (kept_first block.now) }
{
    let to = at + DESCRIPTOR_BYTES;
    blocks::character::keep_first(block, &mut s[at..to]);
}

// Writes a character's record: its head, and what is kept of an accepted first block, with n bytes of its data.
pub fn write_character(s: &mut [u8], at: usize, id: CharacterId, block: &[u8], n: usize)
    requires { (at + character_record + n ≤ length s.old) × (descriptor_bytes + n ≤ length block.now) }
    ensures { s.new ≡ with_bytes s.old at (character_bytes id.font id.code (kept_first block.now) (take n (drop descriptor_bytes block.now))) }
{
    write_head(s, at, CHARACTER_RECORD + n, id);
    write_descriptor(s, at + CHARACTER_KEPT_AT, block);
    let end = DESCRIPTOR_BYTES + n;
    copy(s, at + CHARACTER_RECORD, &block[DESCRIPTOR_BYTES..end]);
}

// Makes a character's record of old bytes longer by n bytes of a continuation.
pub fn extend_character(s: &mut [u8], at: usize, old: usize, block: &[u8], n: usize)
    requires { (at + old + n ≤ length s.old) × (2 ≤ old) × (continuation_bytes + n ≤ length block.now) }
    ensures { s.new ≡ with_bytes (with_bytes s.old at (low_first 2 (old + n))) (at + old) (take n (drop continuation_bytes block.now)) }
{
    put::<2>(s, at, old + n);
    let end = CONTINUATION_BYTES + n;
    copy(s, at + old, &block[CONTINUATION_BYTES..end]);
}
