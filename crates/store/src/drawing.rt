// Calls that draw a kept character: one row, or the picture.
ghost use Rattle.std.specs.Prelude.{◌≡◌, ◌<◌, length};
ghost use Rattle.blocks.specs.Character.{width, descriptor_bytes};
ghost use Rattle.refusals.specs.Refusals.{number_or_0};
ghost use Rattle.store.specs.Drawing.{row_of, picture_of, drawing_row, drawing_picture};

use blocks::character;
use form::layout::{CHARACTER_KEPT_AT, CHARACTER_RECORD};
use form::seek;
use pictures::{picture, size};
use refusals::Refused;

// Draws a row of the character with the descriptor h.
fn draw_row_of(h: &[u8], bytes: &[u8], row: u32, out: &mut [u8]) -> Result<(), Refused>
    requires { (length h.now ≡ descriptor_bytes) × (0 < width h.now) }
    ensures value { number_or_0 result ≡ (row_of h.now bytes.now row out.old).answer }
    ensures out_after { out.new ≡ (row_of h.now bytes.now row out.old).bytes }
{
    if u32::from(character::height(h)) <= row {
        return Err(Refused::OutOfRange);
    }
    let width = character::width(h);
    let n = size::row_size(width);
    if out.len() < n {
        return Err(Refused::OutputShort);
    }
    picture::draw_row(character::class(h), width, bytes, row as u16, &mut out[..n]);
    Ok(())
}

// Draws the picture of the character with the descriptor h.
fn draw_picture_of(h: &[u8], bytes: &[u8], out: &mut [u8]) -> Result<(), Refused>
    requires { (length h.now ≡ descriptor_bytes) × (0 < width h.now) }
    ensures value { number_or_0 result ≡ (picture_of h.now bytes.now out.old).answer }
    ensures out_after { out.new ≡ (picture_of h.now bytes.now out.old).bytes }
{
    let width = character::width(h);
    let height = character::height(h);
    let n = size::picture_size(width, height);
    if out.len() < n {
        return Err(Refused::OutputShort);
    }
    picture::draw_picture(character::class(h), width, height, bytes, &mut out[..n]);
    Ok(())
}

// Draws a row of a character.
pub fn draw_row(s: &[u8], out: &mut [u8], font: u32, code: u32, row: u32) -> Result<(), Refused>
    ensures value { number_or_0 result ≡ (drawing_row font code row s.now out.old).answer }
    ensures out_after { out.new ≡ (drawing_row font code row s.now out.old).bytes }
{
    let p = seek::seek_character(s, font, code)?;
    let h = p.from + CHARACTER_KEPT_AT;
    let d = p.from + CHARACTER_RECORD;
    draw_row_of(&s[h..d], &s[d..p.to], row, out)
}

// Draws a character's picture.
pub fn draw_picture(s: &[u8], out: &mut [u8], font: u32, code: u32) -> Result<(), Refused>
    ensures value { number_or_0 result ≡ (drawing_picture font code s.now out.old).answer }
    ensures out_after { out.new ≡ (drawing_picture font code s.now out.old).bytes }
{
    let p = seek::seek_character(s, font, code)?;
    let h = p.from + CHARACTER_KEPT_AT;
    let d = p.from + CHARACTER_RECORD;
    draw_picture_of(&s[h..d], &s[d..p.to], out)
}
