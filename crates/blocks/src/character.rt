// The character block: its kind, a first block's checks, and the bytes that are kept of its descriptor.
ghost use Rattle.std.specs.Prelude.{◌≡◌, ◌+◌, ◌*◌, ◌<◌, ◌≤◌, length};
ghost use Rattle.pictures.specs.Size.{within, side_limit};
ghost use Rattle.refusals.specs.Refusals.{numbered_result};
ghost use Rattle.blocks.specs.Character.{descriptor_bytes, continuation_bytes, class, left_offset, width, height, delta_x, character_length, kind_of, taken_class, first_form, first_extent, first_fields, first_size, read_first, fix_first, kept_first, is_kept_first};
ghost use Rattle.blocks.specs.Openings.{opens_kept, faces_as};

use crate::{field, header};
use pictures::size;
use refusals::Refused;

// So many bytes of a first block are its descriptor, and so many stand before a continuation's data.
pub const KEPT: usize = 16;

pub const CONTINUATION: usize = 2;

// Where the fields stand.
const FORMAT_AT: usize = 0;

const CONTINUED_AT: usize = 1;

const DESCRIPTOR_SIZE_AT: usize = 2;

const CLASS_AT: usize = 3;

const ORIENTATION_AT: usize = 4;

const RESERVED_AT: usize = 5;

const LEFT_OFFSET_AT: usize = 6;

const TOP_OFFSET_AT: usize = 8;

const WIDTH_AT: usize = 10;

const HEIGHT_AT: usize = 12;

const DELTA_X_AT: usize = 14;

// The format and the descriptor size that are taken.
pub const FORMAT: u8 = 4;

const SIZE_TAKEN: u8 = 14;

#[derive(Clone, Copy)]
pub enum Kind {
    First,
    Continuation,
    Unknown,
}

// The class of a descriptor's data.
pub fn class(h: &[u8]) -> u8
    requires { descriptor_bytes ≤ length h.now }
    ensures { result ≡ class h.now }
{
    h[CLASS_AT]
}

// Its left offset, a signed number by its bits.
pub fn left_offset(h: &[u8]) -> u16
    requires { descriptor_bytes ≤ length h.now }
    ensures { result ≡ left_offset h.now }
{
    field::word(h, LEFT_OFFSET_AT)
}

// The width of its picture, in dots.
pub fn width(h: &[u8]) -> u16
    requires { descriptor_bytes ≤ length h.now }
    ensures { result ≡ width h.now }
{
    field::word(h, WIDTH_AT)
}

// The height of its picture, in rows.
pub fn height(h: &[u8]) -> u16
    requires { descriptor_bytes ≤ length h.now }
    ensures { result ≡ height h.now }
{
    field::word(h, HEIGHT_AT)
}

// Its delta X, a signed number by its bits.
pub fn delta_x(h: &[u8]) -> u16
    requires { descriptor_bytes ≤ length h.now }
    ensures { result ≡ delta_x h.now }
{
    field::word(h, DELTA_X_AT)
}

// A character block has 2 up to 32,767 bytes.
pub fn length_allowed(block: &[u8]) -> bool
    ensures { result ≡ character_length block.now }
{
    (CONTINUATION <= block.len()) & (block.len() <= header::BLOCK_LIMIT)
}

// The first two bytes of a character block.
pub fn kind_of(block: &[u8]) -> Kind
    requires { continuation_bytes ≤ length block.now }
    ensures { result ≡ kind_of block.now }
{
    if block[FORMAT_AT] != FORMAT {
        return Kind::Unknown;
    }
    if block[CONTINUED_AT] == 0 {
        Kind::First
    } else {
        Kind::Continuation
    }
}

// The classes that a first block is taken with.
fn taken_class(k: u8) -> bool
    ensures { result ≡ taken_class k }
{
    (size::BITMAP <= k) & (k <= size::RUNS)
}

fn first_form(block: &[u8]) -> bool
    requires { descriptor_bytes ≤ length block.now }
    ensures { result ≡ first_form block.now }
{
    (block[DESCRIPTOR_SIZE_AT] == SIZE_TAKEN) & taken_class(class(block))
}

// A width or a height.
fn side_allowed(n: u16) -> bool
    ensures { result ≡ within 1 side_limit n }
{
    (1 <= n) & (n <= size::SIDE_LIMIT)
}

// The offsets, the width and the height.
fn first_extent(block: &[u8]) -> bool
    requires { descriptor_bytes ≤ length block.now }
    ensures { result ≡ first_extent block.now }
{
    field::offset_allowed(field::word(block, LEFT_OFFSET_AT))
        & field::offset_allowed(field::word(block, TOP_OFFSET_AT))
        & side_allowed(width(block))
        & side_allowed(height(block))
}

fn first_fields(block: &[u8], orientation: u8) -> bool
    requires { descriptor_bytes ≤ length block.now }
    ensures { result ≡ first_fields block.now orientation }
{
    (block[ORIENTATION_AT] == orientation) & first_extent(block)
}

fn first_size(block: &[u8]) -> bool
    requires { descriptor_bytes ≤ length block.now }
    ensures { result ≡ first_size block.now }
{
    size::picture_size(width(block), height(block)) <= size::DATA_LIMIT
}

// The checks of a first block, in document 01's order, for a font of this orientation.
pub fn read_first(block: &[u8], orientation: u8) -> Result<(), Refused>
    ensures { numbered_result result ≡ read_first block.now orientation }
{
    if block.len() < KEPT {
        return Err(Refused::BlockLength);
    }
    if !first_form(block) {
        return Err(Refused::NotTaken);
    }
    if !first_fields(block, orientation) {
        return Err(Refused::FieldValue);
    }
    if !first_size(block) {
        return Err(Refused::TooLarge);
    }
    Ok(())
}

fn fix_first(s: &mut [u8])
    requires { descriptor_bytes ≤ length s.old }
    ensures { s.new ≡ fix_first s.old }
{
    s[RESERVED_AT] = 0;
    field::floor_word(s, DELTA_X_AT);
}

// Writes what is kept of an accepted first block's descriptor into the bytes lent.
pub fn keep_first(block: &[u8], out: &mut [u8])
    requires { (descriptor_bytes ≤ length block.now) × (length out.old ≡ descriptor_bytes) }
    ensures { out.new ≡ kept_first block.now }
{
    out.copy_from_slice(&block[..KEPT]);
    fix_first(out);
}

// The first four bytes are those of a kept descriptor: one number, so that one test does for all four.
fn opens_kept(k: &[u8]) -> bool
    requires { length k.now ≡ descriptor_bytes }
    ensures { result ≡ opens_kept k.now }
{
    let bitmap = u32::from_le_bytes([FORMAT, 0, SIZE_TAKEN, size::BITMAP]);
    let runs = u32::from_le_bytes([FORMAT, 0, SIZE_TAKEN, size::RUNS]);
    let is = u32::from_le_bytes([
        k[FORMAT_AT],
        k[CONTINUED_AT],
        k[DESCRIPTOR_SIZE_AT],
        k[CLASS_AT],
    ]);
    (is == bitmap) | (is == runs)
}

// The next two bytes, the orientation and a byte that is 0, likewise.
fn faces_as(k: &[u8], orientation: u8) -> bool
    requires { length k.now ≡ descriptor_bytes }
    ensures { result ≡ faces_as k.now orientation }
{
    u16::from_le_bytes([k[ORIENTATION_AT], k[RESERVED_AT]]) == u16::from(orientation)
}

// Whether bytes are what an accepted first block leaves of its descriptor, for a font of this orientation.
pub fn is_kept_first(k: &[u8], orientation: u8) -> bool
    ensures { result ≡ is_kept_first k.now orientation }
{
    if k.len() != KEPT {
        return false;
    }
    let advances = !field::is_negative(field::word(k, DELTA_X_AT));
    opens_kept(k) & (faces_as(k, orientation) & (advances & (first_extent(k) & first_size(k))))
}
