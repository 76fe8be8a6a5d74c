// The line of a font.
ghost use Rattle.std.specs.Prelude.{◌≡◌, ◌+◌, ◌≤◌, ◌<◌, length};
ghost use Rattle.text.specs.Wrote.{Wrote};
ghost use Rattle.blocks.specs.Field.{byte as byte_of};
ghost use Rattle.blocks.specs.Header.{header_bytes};
ghost use Rattle.listing.specs.Line.{word_from, measures, looks, line, font_line};

use crate::column::{write_short, write_signed};
use blocks::header;
use blocks::header::KEPT;
use store::fonts;
use text::column::write_column;

// A kept byte.
fn byte(k: &[u8; KEPT], i: usize) -> usize
    requires { i < header_bytes }
    ensures { (result ≡ byte_of k.now i) × (result < 256) }
{
    usize::from(k[i])
}

// Two kept bytes, high and low.
fn word(k: &[u8; KEPT], hi: usize, lo: usize) -> usize
    requires { (hi < header_bytes) × (lo < header_bytes) }
    ensures { (result ≡ word_from k.now hi lo) × (result < 65536) }
{
    byte(k, hi) * 256 + byte(k, lo)
}

// A field of two kept bytes.
fn word_at(k: &[u8; KEPT], at: usize) -> usize
    requires { at + 1 < header_bytes }
    ensures { (result ≡ word_from k.now at (at + 1)) × (result < 65536) }
{
    word(k, at, at + 1)
}

// Symbol set, spacing, pitch and height.
fn write_measures(out: &mut [u8], at: usize, k: &[u8; KEPT]) -> usize
    requires { at + 24 ≤ length out.old }
    ensures wrote { Wrote out.old at (measures k.now) result out.new }
    ensures upper_bound { result ≤ at + 24 }
{
    let spacing = write_short(out, at, word_at(k, header::SYMBOL_SET_AT), b' ');
    let pitch = write_short(out, spacing, byte(k, header::SPACING_AT), b' ');
    let height = write_short(out, pitch, word_at(k, header::PITCH_AT), b' ');
    write_short(out, height, word_at(k, header::HEIGHT_AT), b' ')
}

// Style, weight and typeface.
fn write_looks(out: &mut [u8], at: usize, k: &[u8; KEPT]) -> usize
    requires { at + 19 ≤ length out.old }
    ensures wrote { Wrote out.old at (looks k.now) result out.new }
    ensures upper_bound { result ≤ at + 19 }
{
    let weight = write_short(
        out,
        at,
        word(k, header::STYLE_HIGH_AT, header::STYLE_LOW_AT),
        b' ',
    );
    let face = write_signed(out, weight, k[header::STROKE_WEIGHT_AT], b' ');
    write_short(
        out,
        face,
        word(k, header::TYPEFACE_HIGH_AT, header::TYPEFACE_LOW_AT),
        b' ',
    )
}

// The line of the font with this number, these kept bytes and so many characters.
fn write_line(out: &mut [u8], at: usize, number: u32, k: &[u8; KEPT], characters: u32) -> usize
    requires { at + 65 ≤ length out.old }
    ensures wrote { Wrote out.old at (line number k.now characters) result out.new }
    ensures upper_bound { result ≤ at + 65 }
{
    let set = write_column(out, at, number as usize, b' ');
    let style = write_measures(out, set, k);
    let chars = write_looks(out, style, k);
    write_column(out, chars, characters as usize, b'\n')
}

// The line of a font of a store.
pub fn write_font(out: &mut [u8], at: usize, s: &[u8], number: u32) -> usize
    requires { at + 65 ≤ length out.old }
    ensures wrote { Wrote out.old at (font_line s.now number) result out.new }
    ensures upper_bound { result ≤ at + 65 }
{
    let mut kept = [0u8; KEPT];
    let told = fonts::tell_font(s, &mut kept, number);
    write_line(out, at, number, &kept, told.count)
}
