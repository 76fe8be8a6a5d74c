// The font block: its checks, and the bytes that are kept.
ghost use Rattle.std.specs.Prelude.{◌≡◌, ◌≤◌, length};
ghost use Rattle.refusals.specs.Refusals.{numbered_result};
ghost use Rattle.blocks.specs.Header.{plain_bytes, header_bytes, font_type, cell_width, cell_height, orientation, spacing, pitch, says_resolution, own_bytes, header_form, header_fields, both_are, header_resolution, read_header, first_bytes, fix_header, kept_header, is_kept_header, fixed_header};

use crate::field;
use refusals::Refused;

// A block has at most so many bytes; so many are kept of every header; one of format 0 has so many itself.
pub const BLOCK_LIMIT: usize = 32767;

pub const KEPT: usize = 68;

const PLAIN: usize = 64;

// Where the fields stand.
const DESCRIPTOR_SIZE_AT: usize = 0;

const FORMAT_AT: usize = 2;

const FONT_TYPE_AT: usize = 3;

pub const STYLE_HIGH_AT: usize = 4;

const RESERVED_AT: usize = 5;

const BASELINE_AT: usize = 6;

const CELL_WIDTH_AT: usize = 8;

const CELL_HEIGHT_AT: usize = 10;

pub const ORIENTATION_AT: usize = 12;

pub const SPACING_AT: usize = 13;

pub const SYMBOL_SET_AT: usize = 14;

pub const PITCH_AT: usize = 16;

pub const HEIGHT_AT: usize = 18;

pub const STYLE_LOW_AT: usize = 23;

pub const STROKE_WEIGHT_AT: usize = 24;

pub const TYPEFACE_LOW_AT: usize = 25;

pub const TYPEFACE_HIGH_AT: usize = 26;

pub const PITCH_EXTENDED_AT: usize = 40;

pub const HEIGHT_EXTENDED_AT: usize = 41;

pub const X_RESOLUTION_AT: usize = 64;

const Y_RESOLUTION_AT: usize = 66;

// The formats that are taken, the second of which says its resolution, and how far the fields go.
const PLAIN_FORMAT: u8 = 0;

const RESOLUTION_FORMAT: u8 = 20;

pub const COARSE_RESOLUTION: u16 = 300;

pub const FINE_RESOLUTION: u16 = 600;

const LAST_FONT_TYPE: u8 = 2;

pub const LAST_STYLE: u16 = 1023;

pub const LAST_ORIENTATION: u8 = 3;

pub const LAST_SPACING: u8 = 1;

pub const LAST_SYMBOL_SET: u16 = 2047;

const PITCH_LIMIT: u16 = 16800;

const HEIGHT_LIMIT: u16 = 10922;

// The type of a header's font.
pub fn font_type(h: &[u8]) -> u8
    requires { header_bytes ≤ length h.now }
    ensures { result ≡ font_type h.now }
{
    h[FONT_TYPE_AT]
}

// The width of its cell, in dots.
pub fn cell_width(h: &[u8]) -> u16
    requires { header_bytes ≤ length h.now }
    ensures { result ≡ cell_width h.now }
{
    field::word(h, CELL_WIDTH_AT)
}

// The height of its cell, in dots.
pub fn cell_height(h: &[u8]) -> u16
    requires { header_bytes ≤ length h.now }
    ensures { result ≡ cell_height h.now }
{
    field::word(h, CELL_HEIGHT_AT)
}

// The orientation of a header.
pub fn orientation(h: &[u8]) -> u8
    requires { plain_bytes ≤ length h.now }
    ensures { result ≡ orientation h.now }
{
    h[ORIENTATION_AT]
}

// Its spacing.
pub fn spacing(h: &[u8]) -> u8
    requires { header_bytes ≤ length h.now }
    ensures { result ≡ spacing h.now }
{
    h[SPACING_AT]
}

// Its pitch field.
pub fn pitch(h: &[u8]) -> u16
    requires { header_bytes ≤ length h.now }
    ensures { result ≡ pitch h.now }
{
    field::word(h, PITCH_AT)
}

// Whether a header is of the format that says its resolution.
fn says_resolution(h: &[u8]) -> bool
    requires { plain_bytes ≤ length h.now }
    ensures { result ≡ says_resolution h.now }
{
    h[FORMAT_AT] == RESOLUTION_FORMAT
}

// How many bytes a header has at least, by its format.
pub fn own_bytes(h: &[u8]) -> usize
    requires { plain_bytes ≤ length h.now }
    ensures { (result ≡ own_bytes h.now) × (result ≤ header_bytes) }
{
    if says_resolution(h) { KEPT } else { PLAIN }
}

fn header_form(block: &[u8]) -> bool
    requires { plain_bytes ≤ length block.now }
    ensures { result ≡ header_form block.now }
{
    let least = own_bytes(block);
    let size = field::word(block, DESCRIPTOR_SIZE_AT) as usize;
    ((block[FORMAT_AT] == PLAIN_FORMAT) | says_resolution(block))
        & ((least <= size) & (size <= block.len()))
}

fn header_fields(block: &[u8]) -> bool
    requires { plain_bytes ≤ length block.now }
    ensures { result ≡ header_fields block.now }
{
    (block[FONT_TYPE_AT] <= LAST_FONT_TYPE)
        & (field::join(block[STYLE_HIGH_AT], block[STYLE_LOW_AT]) <= LAST_STYLE)
        & (1 <= field::word(block, CELL_WIDTH_AT))
        & (1 <= field::word(block, CELL_HEIGHT_AT))
        & (field::word(block, BASELINE_AT) < field::word(block, CELL_HEIGHT_AT))
        & (block[ORIENTATION_AT] <= LAST_ORIENTATION)
        & (block[SPACING_AT] <= LAST_SPACING)
        & (field::word(block, SYMBOL_SET_AT) <= LAST_SYMBOL_SET)
        & field::weight_allowed(block[STROKE_WEIGHT_AT])
}

// Whether X and Y are both this resolution.
fn both_are(h: &[u8], resolution: u16) -> bool
    requires { header_bytes ≤ length h.now }
    ensures { result ≡ both_are resolution h.now }
{
    field::is_word(h, X_RESOLUTION_AT, resolution) & field::is_word(h, Y_RESOLUTION_AT, resolution)
}

fn header_resolution(h: &[u8]) -> bool
    requires { own_bytes h.now ≤ length h.now }
    ensures { result ≡ header_resolution h.now }
{
    if says_resolution(h) {
        both_are(h, COARSE_RESOLUTION) | both_are(h, FINE_RESOLUTION)
    } else {
        true
    }
}

// The checks of a font block, in document 01's order.
pub fn read_header(block: &[u8]) -> Result<(), Refused>
    ensures { numbered_result result ≡ read_header block.now }
{
    if block.len() < PLAIN {
        return Err(Refused::BlockLength);
    }
    if block.len() < own_bytes(block) {
        return Err(Refused::BlockLength);
    }
    if BLOCK_LIMIT < block.len() {
        return Err(Refused::BlockLength);
    }
    if !header_form(block) {
        return Err(Refused::NotTaken);
    }
    if !(header_fields(block) & header_resolution(block)) {
        return Err(Refused::FieldValue);
    }
    Ok(())
}

// Copies the bytes of an accepted block that the rules then change. A format 0 font gets its resolution.
fn copy_first(block: &[u8], out: &mut [u8])
    requires { (own_bytes block.now ≤ length block.now) × (length out.old ≡ header_bytes) }
    ensures { out.new ≡ first_bytes block.now }
{
    if says_resolution(block) {
        out.copy_from_slice(&block[..KEPT]);
    } else {
        out[..PLAIN].copy_from_slice(&block[..PLAIN]);
        field::put_word(out, X_RESOLUTION_AT, COARSE_RESOLUTION);
        field::put_word(out, Y_RESOLUTION_AT, COARSE_RESOLUTION);
    }
}

fn fix_header(s: &mut [u8])
    requires { header_bytes ≤ length s.old }
    ensures { s.new ≡ fix_header s.old }
{
    let size = own_bytes(s);
    field::put_word(s, DESCRIPTOR_SIZE_AT, size as u16);
    s[RESERVED_AT] = 0;
    field::cap_extended(s, PITCH_AT, PITCH_EXTENDED_AT, PITCH_LIMIT);
    field::cap_extended(s, HEIGHT_AT, HEIGHT_EXTENDED_AT, HEIGHT_LIMIT);
}

// Writes what is kept of an accepted block into the bytes lent.
pub fn keep_header(block: &[u8], out: &mut [u8])
    requires { (own_bytes block.now ≤ length block.now) × (length out.old ≡ header_bytes) }
    ensures { out.new ≡ kept_header block.now }
{
    copy_first(block, out);
    fix_header(out);
}

// The bytes that the rules change stand as the rules leave them.
fn fixed_header(k: &[u8]) -> bool
    requires { length k.now ≡ header_bytes }
    ensures { result ≡ fixed_header k.now }
{
    let size = own_bytes(k);
    (((k[FORMAT_AT] == PLAIN_FORMAT) & both_are(k, COARSE_RESOLUTION)) | says_resolution(k))
        & (field::word(k, DESCRIPTOR_SIZE_AT) as usize == size)
        & (k[RESERVED_AT] == 0)
        & (field::word(k, PITCH_AT) <= PITCH_LIMIT)
        & (field::word(k, HEIGHT_AT) <= HEIGHT_LIMIT)
}

// Whether bytes are what an accepted block leaves.
pub fn is_kept_header(k: &[u8]) -> bool
    ensures { result ≡ is_kept_header k.now }
{
    if k.len() != KEPT {
        return false;
    }
    if !fixed_header(k) {
        return false;
    }
    if !header_resolution(k) {
        return false;
    }
    header_fields(k)
}
