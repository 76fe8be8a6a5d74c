// The numbers of the store's form, as specs/Layout.antt has them, each by one name.
use blocks::{character, header};
use pictures::size;

// The least and the greatest length of a store.
pub const LEAST_STORE: usize = MARK_RECORD;

pub const MOST_STORE: usize = 65536;

// Where a record's kind stands behind its length, and the font number of a font or a character.
pub const KIND_AT: usize = 4;

pub const NUMBER_AT: usize = 6;

// The first record.
pub const MARK_KIND: usize = 1;

pub const MARK_RECORD: usize = 12;

pub const MARK_ON_AT: usize = 6;

pub const MARK_FONT_AT: usize = 8;

pub const MARK_CODE_AT: usize = 10;

// A font's record.
pub const FONT_KIND: usize = 2;

pub const FONT_RECORD: usize = FONT_KEPT_AT + HEADER_BYTES;

pub const FONT_CHARACTERS_AT: usize = 8;

pub const FONT_BYTES_AT: usize = 10;

pub const FONT_KEPT_AT: usize = 14;

pub const FONT_ORIENTATION_AT: usize = FONT_KEPT_AT + header::ORIENTATION_AT;

// A character's record, its data on top.
pub const CHARACTER_KIND: usize = 3;

pub const CHARACTER_RECORD: usize = CHARACTER_KEPT_AT + DESCRIPTOR_BYTES;

pub const CODE_AT: usize = 8;

pub const CHARACTER_KEPT_AT: usize = 10;

// The numbers in range, as records hold them and as calls have them.
pub const LAST_FONT: usize = 32767;

pub const LAST_CODE: usize = 255;

pub const LAST_FONT_ASKED: u32 = LAST_FONT as u32;

pub const LAST_CODE_ASKED: u32 = LAST_CODE as u32;

// Two bytes spell the numbers below this one.
pub const WORD_END: usize = 65536;

// Four bytes spell the numbers below this one.
pub const DOUBLE_END: usize = 4294967296;

// The keys of one font and its characters.
pub const KEYS_EACH: usize = 257;

// Of blocks: how many bytes are kept, and how many stand before a continuation's data.
pub const HEADER_BYTES: usize = header::KEPT;

pub const DESCRIPTOR_BYTES: usize = character::KEPT;

pub const CONTINUATION_BYTES: usize = character::CONTINUATION;

pub const DATA_LIMIT: usize = size::DATA_LIMIT;
