// Places in a buffer that is known to be a store: by the heads of its records, which are not checked again, and from a place that an earlier
// search left, so that a stream does not begin each search at the front.
ghost use Rattle.std.specs.Prelude.{◌≡◌, ◌+◌, ◌≤◌, length};
ghost use Rattle.form.specs.Layout.{key_of, character_record, last_font, last_code};
ghost use Rattle.form.specs.Walk.{Stands};
ghost use Rattle.form.specs.Cursor.{key_at, Behind, EndKnown, Seeking, Reaches, Points};

use crate::layout::{CODE_AT, FONT_KIND, KEYS_EACH, KIND_AT, MARK_RECORD, NUMBER_AT};
use crate::number;
use crate::walk::{Places, RunEnd};

// What is known of a store: where its records end, where a font's place is, and where the place of one more key is.
#[derive(Clone, Copy)]
pub struct Cursor {
    pub used: usize,
    pub font: usize,
    pub lo: usize,
    pub key: usize,
    pub at: usize,
}

// The key of the record that begins at a place.
fn key_at(s: &[u8], at: usize) -> usize
    requires { at + character_record ≤ length s.now }
    ensures { result ≡ key_at s.now at }
{
    let font = number::le16(s, at + NUMBER_AT);
    if number::le16(s, at + KIND_AT) == FONT_KIND {
        return font * KEYS_EACH + 0;
    }
    font * KEYS_EACH + (number::le16(s, at + CODE_AT) + 1)
}

// The place of a key, by a search that begins at from.
fn advance(s: &[u8], used: usize, from: usize, key: usize) -> usize
    requires { Seeking s.now used key from }
    ensures { Reaches s.now key result }
{
    let mut at = from;
    while at < used && key_at(s, at) < key {
        at += number::le32(s, at);
    }
    at
}

// The place of a key, by a search that begins at from, where the records end so: no key from the least on stands.
fn reach(s: &[u8], end: RunEnd, from: usize, key: usize) -> usize
    requires { Behind s.now end.used end.least × Seeking s.now end.used key from }
    ensures { Reaches s.now key result }
{
    if end.least <= key {
        return end.used;
    }
    advance(s, end.used, from, key)
}

// Where a font and its characters end: from the place of one of its records, if that is known, else from its own.
fn seek_end(s: &[u8], end: RunEnd, lo: usize, to: usize, font: usize, place: usize) -> usize
    requires { Behind s.now end.used end.least × Reaches s.now (key_of font 0) lo × Reaches s.now (key_of font place + 1) to × (font ≤ 4294967296) }
    ensures { Reaches s.now (key_of (font + 1) 0) result }
{
    if place < KEYS_EACH {
        return reach(s, end, to, (font + 1) * KEYS_EACH + 0);
    }
    reach(s, end, lo, (font + 1) * KEYS_EACH + 0)
}

// The place of a record: the last one's is known.
fn seek_record(s: &[u8], end: RunEnd, lo: usize, font: usize, place: usize) -> usize
    requires { EndKnown font s.now end × Reaches s.now (key_of font 0) lo × (font ≤ 4294967296) × (place ≤ 4294967296) }
    ensures { Reaches s.now (key_of font place) result }
{
    let key = font * KEYS_EACH + place;
    if key + 1 == end.least {
        return end.last;
    }
    reach(s, end, lo, key)
}

// Where font `font` stands in a store whose records end so, and the record at a place of it, whatever numbers these are.
pub(crate) fn places_in(s: &[u8], end: RunEnd, font: usize, place: usize) -> Places
    requires { EndKnown font s.now end × (font ≤ 4294967296) × (place ≤ 4294967296) }
    ensures { Stands font place s.now result }
{
    let lo = reach(s, end, end.near, font * KEYS_EACH + 0);
    let from = seek_record(s, end, lo, font, place);
    let to = reach(s, end, from, font * KEYS_EACH + place + 1);
    let hi = seek_end(s, end, lo, to, font, place);
    Places {
        used: end.used,
        lo,
        from,
        to,
        hi,
    }
}

// The place of a key, from the nearest known place before it.
fn seek_key(s: &[u8], c: Cursor, key: usize) -> usize
    requires { Points s.now c }
    ensures { Reaches s.now key result }
{
    if c.key <= key {
        return advance(s, c.used, c.at, key);
    }
    if c.font * KEYS_EACH + 0 <= key {
        return advance(s, c.used, c.lo, key);
    }
    advance(s, c.used, MARK_RECORD, key)
}

// The place of a key in a font whose place lo is known: from the cursor, if it is nearer.
fn seek_place(s: &[u8], c: Cursor, lo: usize, font: usize, key: usize) -> usize
    requires { Points s.now c × Reaches s.now (key_of font 0) lo × (key_of font 0 ≤ key) }
    ensures { Reaches s.now key result }
{
    if key < c.key {
        return advance(s, c.used, lo, key);
    }
    if c.at <= lo {
        return advance(s, c.used, lo, key);
    }
    advance(s, c.used, c.at, key)
}

// Where font `font` stands in a store, and the record at a place of it: 0 the font itself, code + 1 a character.
pub fn locate(s: &[u8], c: Cursor, font: usize, place: usize) -> Places
    requires { Points s.now c × (font ≤ last_font) × (place ≤ last_code + 1) }
    ensures { Stands font place s.now result }
{
    let key = font * KEYS_EACH + place;
    let lo = seek_key(s, c, font * KEYS_EACH + 0);
    let from = seek_place(s, c, lo, font, key);
    let to = advance(s, c.used, from, key + 1);
    let hi = advance(s, c.used, to, (font + 1) * KEYS_EACH + 0);
    Places {
        used: c.used,
        lo,
        from,
        to,
        hi,
    }
}
