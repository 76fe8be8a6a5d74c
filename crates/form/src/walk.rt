// The walk over a buffer's records: whether it is a store, and the places that a call asks for. One pass over the bytes.
ghost use Rattle.std.specs.Prelude.{◌≡◌, ◌+◌, ◌-◌, ◌*◌, ◌≤◌, ◌<◌, true, false, cond, is_some, unwrap_or, length, take, drop, ltb};
ghost use Rattle.blocks.specs.Character.{descriptor_bytes};
ghost use Rattle.form.specs.Layout.{character_kept_at, character_record, kind_at, last_font, least_store, mark_record, most_store, character_kind, font_kind, last_code};
ghost use Rattle.form.specs.Num.{field};
ghost use Rattle.form.specs.Model.{Owner, held_under, decode, begins, mark_in};
ghost use Rattle.form.specs.Walk.{head_of, Heading, passed, walked, walk_after, Ahead, Within, nearer, walk_start, mark_seen, surveyed, checked_store, inspected, font_lookup, character_lookup, font_number, character_number};

use crate::layout::{
    CHARACTER_KEPT_AT, CHARACTER_KIND, CHARACTER_RECORD, CODE_AT, FONT_KEPT_AT, FONT_KIND,
    FONT_ORIENTATION_AT, FONT_RECORD, KEYS_EACH, KIND_AT, LAST_CODE, LAST_FONT, LEAST_STORE,
    MARK_CODE_AT, MARK_FONT_AT, MARK_KIND, MARK_ON_AT, MARK_RECORD, MOST_STORE, NUMBER_AT,
};
use crate::tally::{NONE, Tally};
use crate::{locate, number, tally};
use blocks::{character, header};
use pictures::picture;
use pictures::picture::Held;
use std::ops::ControlFlow;

// What stands at a place of the run: the font number, 0 or the code and 1, the length, the font's orientation, whether it is incomplete, and the
// numbers that a font's record holds.
#[derive(Clone, Copy)]
pub struct Item {
    pub font: usize,
    pub place: usize,
    pub len: usize,
    pub orientation: u8,
    pub unfinished: bool,
    pub held: Tally,
}

// Two of its three cases are no record, and an option of an option would name neither.
#[derive(Clone, Copy)]
pub enum Head {
    End,
    Rec(Item),
    Bad,
}

// How far a walk has come: the place; that of the last font up to the one asked for, and of the last record; whether the open character was met; the least key, the font and the orientation that the next record must
// have; the numbers that the font's record holds, and those of its characters met so far.
#[derive(Clone, Copy)]
pub struct Pos {
    pub at: usize,
    pub near: usize,
    pub last: usize,
    pub marked: bool,
    pub key: usize,
    pub owner: usize,
    pub orientation: u8,
    pub held: Tally,
    pub met: Tally,
}

// Where the records end; where a font with its characters starts and ends; where one record starts and ends.
#[derive(Clone, Copy)]
pub struct Places {
    pub used: usize,
    pub lo: usize,
    pub from: usize,
    pub to: usize,
    pub hi: usize,
}

// Where the records end, and the least key that may stand there; where the last font up to the one asked for stands, and the last record.
#[derive(Clone, Copy)]
pub struct RunEnd {
    pub used: usize,
    pub least: usize,
    pub near: usize,
    pub last: usize,
}

// How the records of a store end, and whether the open character was met; none, if the buffer is no store.
type Walked = Option<(RunEnd, bool)>;

type Step = ControlFlow<Walked, Pos>;

// The open mark: closed, naming the character with a key, or neither. An option of an option would not name the two cases without a key.
#[derive(Clone, Copy)]
pub enum MarkSeen {
    Shut,
    Open(usize),
    Wrong,
}

// A character's data, by its descriptor, which must be a kept one of a font of this orientation.
fn held_character(h: &[u8], orientation: u8, d: &[u8]) -> Held
    requires { length h.now ≡ descriptor_bytes }
    ensures { result ≡ held_under orientation h.now d.now }
{
    if !character::is_kept_first(h, orientation) {
        return Held::Foreign;
    }
    picture::held_in(
        character::class(h),
        character::width(h),
        character::height(h),
        d,
    )
}

// The data of a character record of len bytes.
fn held_at(s: &[u8], at: usize, len: usize, orientation: u8) -> Held
    requires { (character_record ≤ len) × (at + len ≤ length s.now) }
    ensures { result ≡ held_under orientation (take descriptor_bytes (drop character_kept_at (drop at s.now))) (take (len - character_record) (drop character_record (drop at s.now))) }
{
    let from = at + CHARACTER_KEPT_AT;
    let to = at + CHARACTER_RECORD;
    let end = at + len;
    held_character(&s[from..to], orientation, &s[to..end])
}

fn look_font(s: &[u8], at: usize, len: usize) -> Head
    requires { Heading s.now at len × (field 2 (at + kind_at) s.now ≡ font_kind) }
    ensures { (u : Owner) → result ≡ head_of u (drop at s.now) }
{
    if len != FONT_RECORD {
        return Head::Bad;
    }
    let font = number::le16(s, at + NUMBER_AT);
    if LAST_FONT < font {
        return Head::Bad;
    }
    let from = at + FONT_KEPT_AT;
    let to = at + FONT_RECORD;
    if !header::is_kept_header(&s[from..to]) {
        return Head::Bad;
    }
    Head::Rec(Item {
        font,
        place: 0,
        len: FONT_RECORD,
        orientation: s[at + FONT_ORIENTATION_AT],
        unfinished: false,
        held: tally::tally_at(s, at),
    })
}

fn look_character(s: &[u8], at: usize, len: usize, owner: usize, orientation: u8) -> Head
    requires { Heading s.now at len × (field 2 (at + kind_at) s.now ≡ character_kind) }
    ensures { result ≡ head_of (record { owner = owner; orientation = orientation }) (drop at s.now) }
{
    if len < CHARACTER_RECORD {
        return Head::Bad;
    }
    let font = number::le16(s, at + NUMBER_AT);
    let code = number::le16(s, at + CODE_AT);
    if owner != font + 1 {
        return Head::Bad;
    }
    if LAST_FONT < font {
        return Head::Bad;
    }
    if LAST_CODE < code {
        return Head::Bad;
    }
    match held_at(s, at, len, orientation) {
        Held::Whole => Head::Rec(Item {
            font,
            place: code + 1,
            len,
            orientation,
            unfinished: false,
            held: NONE,
        }),
        Held::Unfinished => Head::Rec(Item {
            font,
            place: code + 1,
            len,
            orientation,
            unfinished: true,
            held: NONE,
        }),
        Held::Foreign => Head::Bad,
    }
}

// What stands at a place of the run, behind a font of this number and orientation.
fn look(s: &[u8], at: usize, owner: usize, orientation: u8) -> Head
    requires { at ≤ length s.now }
    ensures { result ≡ head_of (record { owner = owner; orientation = orientation }) (drop at s.now) }
{
    let left = s.len() - at;
    if left < CHARACTER_RECORD {
        return Head::End;
    }
    let len = number::le32(s, at);
    if len == 0 {
        return Head::End;
    }
    if left < len {
        return Head::Bad;
    }
    let kind = number::le16(s, at + KIND_AT);
    if kind == FONT_KIND {
        return look_font(s, at, len);
    }
    if kind == CHARACTER_KIND {
        return look_character(s, at, len, owner, orientation);
    }
    Head::Bad
}

// The place of the last font with a number up to the one asked for, behind a font.
fn nearer_font(font: usize, number: usize, at: usize, near: usize) -> usize
    ensures { result ≡ nearer font number 0 at near }
{
    if number <= font { at } else { near }
}

// A walk at p, over a record with a key, where font is asked for and mark is the key of the open character: the numbers of the font before it must be
// true if it is the next font's.
fn pass(font: usize, mark: usize, p: Pos, i: Item) -> Step
    requires font_le_last_font { (i.font ≤ last_font) × (i.place ≤ last_code + 1) × (i.len ≤ most_store) × Within most_store p }
    requires character_record_le_len { (i.place ≡ 0 → ⊥) → character_record ≤ i.len }
    ensures { result ≡ passed font mark p i }
{
    let key = i.font * KEYS_EACH + i.place;
    if key < p.key {
        return ControlFlow::Break(None);
    }
    if i.place == 0 {
        if p.held != p.met {
            return ControlFlow::Break(None);
        }
        return ControlFlow::Continue(Pos {
            at: p.at + i.len,
            near: nearer_font(font, i.font, p.at, p.near),
            last: p.at,
            marked: p.marked | ((key == mark) & i.unfinished),
            key: key + 1,
            owner: i.font + 1,
            orientation: i.orientation,
            held: i.held,
            met: NONE,
        });
    }
    ControlFlow::Continue(Pos {
        at: p.at + i.len,
        near: p.near,
        last: p.at,
        marked: p.marked | ((key == mark) & i.unfinished),
        key: key + 1,
        owner: i.font + 1,
        orientation: i.orientation,
        held: p.held,
        met: Tally {
            characters: p.met.characters + 1,
            bytes: p.met.bytes + (i.len - CHARACTER_RECORD),
        },
    })
}

fn walk_one(s: &[u8], font: usize, mark: usize, p: Pos) -> Step
    requires { (length s.now ≤ most_store) × Within (length s.now) p }
    ensures { (walk_after font mark s.now result ≡ walked font mark p (drop p.at s.now)) × Ahead (length s.now) p result }
{
    let at = p.at;
    match look(s, at, p.owner, p.orientation) {
        Head::End => {
            if (p.held == p.met) & number::zeros(s, at) {
                let end = RunEnd {
                    used: p.at,
                    least: p.key,
                    near: p.near,
                    last: p.last,
                };
                ControlFlow::Break(Some((end, p.marked)))
            } else {
                ControlFlow::Break(None)
            }
        }
        Head::Rec(i) => pass(font, mark, p, i),
        Head::Bad => ControlFlow::Break(None),
    }
}

// The whole run of a buffer, behind its first record.
fn survey(s: &[u8], font: usize, mark: usize) -> Walked
    requires { (least_store ≤ length s.now) × (length s.now ≤ most_store) }
    ensures { result ≡ walked font mark walk_start (drop mark_record s.now) }
{
    let mut p = Pos {
        at: MARK_RECORD,
        near: MARK_RECORD,
        last: 0,
        marked: false,
        key: 0,
        owner: 0,
        orientation: 0,
        held: NONE,
        met: NONE,
    };
    loop {
        match walk_one(s, font, mark, p) {
            ControlFlow::Continue(next) => {
                p = next;
            }
            ControlFlow::Break(w) => {
                return w;
            }
        }
    }
}

// A length that a store may have, and the head of its first record.
fn begins_right(s: &[u8]) -> bool
    ensures { result ≡ begins s.now }
{
    if s.len() < LEAST_STORE {
        return false;
    }
    if MOST_STORE < s.len() {
        return false;
    }
    if number::le32(s, 0) != MARK_RECORD {
        return false;
    }
    number::le16(s, KIND_AT) == MARK_KIND
}

fn see_mark(s: &[u8]) -> MarkSeen
    requires { mark_record ≤ length s.now }
    ensures { result ≡ mark_seen (mark_in s.now) }
{
    let on = number::le16(s, MARK_ON_AT);
    let font = number::le16(s, MARK_FONT_AT);
    let code = number::le16(s, MARK_CODE_AT);
    if on == 0 {
        if font + code == 0 {
            return MarkSeen::Shut;
        }
        return MarkSeen::Wrong;
    }
    if on != 1 {
        return MarkSeen::Wrong;
    }
    if LAST_FONT < font {
        return MarkSeen::Wrong;
    }
    if LAST_CODE < code {
        return MarkSeen::Wrong;
    }
    MarkSeen::Open(font * KEYS_EACH + (code + 1))
}

// The records of a buffer whose first record is right: the open character, if there is one, must be there and incomplete.
fn check_records(s: &[u8], font: usize, opened: Option<usize>) -> Option<RunEnd>
    requires { (least_store ≤ length s.now) × (length s.now ≤ most_store) }
    ensures { result ≡ surveyed font (unwrap_or opened 0) (is_some opened) (drop mark_record s.now) }
{
    let (end, marked) = survey(s, font, opened.unwrap_or(0))?;
    if opened.is_none() | marked {
        Some(end)
    } else {
        None
    }
}

// Whether a buffer is a store, and how its records end, where a font is asked for.
pub fn check(s: &[u8], font: usize) -> Option<RunEnd>
    ensures { result ≡ checked_store font (decode s.now) }
{
    if !begins_right(s) {
        return None;
    }
    match see_mark(s) {
        MarkSeen::Shut => check_records(s, font, None),
        MarkSeen::Open(key) => check_records(s, font, Some(key)),
        MarkSeen::Wrong => None,
    }
}

// Whether a buffer is a store, and where font `font` stands in it and the record at a place of it: 0 the font itself, code + 1 a character.
pub fn inspect(s: &[u8], font: usize, place: usize) -> Option<Places>
    requires { (font ≤ 4294967296) × (place ≤ 4294967296) }
    ensures { result ≡ inspected font place (decode s.now) }
{
    let end = check(s, font)?;
    Some(locate::places_in(s, end, font, place))
}

// Whether the font stands there.
pub fn look_up_font(p: Places) -> Option<Places>
    ensures { (result ≡ font_lookup p) × (font_number result ≡ cond (ltb p.lo p.hi) 0 6) }
{
    if p.lo < p.hi { Some(p) } else { None }
}

// Whether the character stands there.
pub fn look_up_character(p: Places) -> Option<Places>
    ensures { (result ≡ character_lookup p) × (character_number result ≡ cond (ltb p.from p.to) 0 7) }
{
    if p.from < p.to { Some(p) } else { None }
}
