// Calls on fonts: make a store fresh, download a font block, remove a font, tell a font's kept bytes.
ghost use Rattle.std.specs.Prelude.{◌≡◌, ◌≤◌};
ghost use Rattle.std.specs.Prelude.{Ok};
ghost use Rattle.refusals.specs.Refusals.{number_or_0};
ghost use Rattle.form.specs.Layout.{last_font};
ghost use Rattle.store.specs.Answer.{told_of};
ghost use Rattle.form.specs.Walk.{Stands};
ghost use Rattle.blocks.specs.Header.{read_header};
ghost use Rattle.store.specs.Calls.{making_fresh, removing_font, downloading_font, telling_font};
ghost use Rattle.store.specs.Putting.{putting_font};

use crate::telling;
use crate::telling::Told;
use blocks::header;
use form::layout::{
    FONT_CHARACTERS_AT, FONT_KEPT_AT, FONT_RECORD, HEADER_BYTES, KIND_AT, LAST_FONT_ASKED,
    LEAST_STORE, MARK_KIND, MARK_RECORD, MOST_STORE,
};
use form::walk::Places;
use form::{number, seek, walk};
use refusals::Refused;

// Makes a store fresh: the first record with none open, then zeros.
pub fn make_fresh(s: &mut [u8]) -> Result<(), Refused>
    ensures value { number_or_0 result ≡ (making_fresh s.old).answer }
    ensures s_after { s.new ≡ (making_fresh s.old).bytes }
{
    let n = s.len();
    if n < LEAST_STORE {
        return Err(Refused::NotStore);
    }
    if MOST_STORE < n {
        return Err(Refused::NotStore);
    }
    change::clear(s, 0, n);
    change::put::<2>(s, 0, MARK_RECORD);
    change::put::<2>(s, KIND_AT, MARK_KIND);
    Ok(())
}

// Removes a font with all its characters.
pub fn remove_font(s: &mut [u8], font: u32) -> Result<(), Refused>
    ensures value { number_or_0 result ≡ (removing_font font s.old).answer }
    ensures s_after { s.new ≡ (removing_font font s.old).bytes }
{
    let p = seek::seek_font(s, font)?;
    change::cut_font(s, p.lo, p.hi, p.used, font as usize);
    Ok(())
}

// Puts an accepted block's font in the place of any of its number with its characters. Its places p are known.
pub(crate) fn put_font(s: &mut [u8], p: Places, font: u32, block: &[u8]) -> Result<(), Refused>
    requires { (font ≤ last_font) × (read_header block.now ≡ Ok tt) × Stands font 0 s.old p }
    ensures value { number_or_0 result ≡ (putting_font font block.now s.old).answer }
    ensures s_after { s.new ≡ (putting_font font block.now s.old).bytes }
{
    let n = font as usize;
    let lo = p.lo;
    let old = p.hi - lo;
    let used = p.used;
    if s.len() < used - old + FONT_RECORD {
        return Err(Refused::NoRoom);
    }
    change::splice(s, lo, old, used, FONT_RECORD);
    change::write_font(s, lo, n, block);
    change::unmark_font(s, n);
    Ok(())
}

// Downloads a font block.
pub fn download_font(s: &mut [u8], block: &[u8], font: u32) -> Result<(), Refused>
    ensures value { number_or_0 result ≡ (downloading_font font block.now s.old).answer }
    ensures s_after { s.new ≡ (downloading_font font block.now s.old).bytes }
{
    let p = walk::inspect(s, font as usize, 0).ok_or(Refused::NotStore)?;
    if LAST_FONT_ASKED < font {
        return Err(Refused::OutOfRange);
    }
    header::read_header(block)?;
    put_font(s, p, font, block)
}

// Tells a font's kept bytes, and the number of its characters.
pub fn tell_font(s: &[u8], out: &mut [u8], font: u32) -> Told
    ensures { told_of result out.new ≡ telling_font font s.now out.old }
{
    match seek::seek_font(s, font) {
        Err(r) => telling::untold(u32::from(r)),
        Ok(p) => {
            if out.len() < HEADER_BYTES {
                return telling::untold(12);
            }
            let at = p.lo;
            telling::copy_kept(s, at + FONT_KEPT_AT, HEADER_BYTES, out);
            Told {
                refusal: 0,
                count: number::le16(s, at + FONT_CHARACTERS_AT) as u32,
            }
        }
    }
}
