// Picture data of either class: when it is complete, what is kept of it, and drawing it.
ghost use Rattle.std.specs.Prelude.{◌≡◌, ◌+◌, ◌<◌, ◌++◌, length};
ghost use Rattle.pictures.specs.Size.{row_size, picture_size};
ghost use Rattle.pictures.specs.Picture.{judge, judge_bitmap, held, held_by};
ghost use Rattle.pictures.specs.Rows.{row_bytes, picture};

use crate::runs::PastWidth;
use crate::{bitmap, compressed, runs, size};

// A character's data in a store: a whole picture, an unfinished one, or what no acceptance leaves; three cases, and none is a failure.
#[derive(Clone, Copy)]
pub enum Held {
    Whole,
    Unfinished,
    Foreign,
}

// The bytes that a picture takes, if there are so many.
fn judge_bitmap(len: usize, width: u16, height: u16) -> Option<usize>
    ensures { Ok result ≡ judge_bitmap width height len }
{
    let size = size::picture_size(width, height);
    (size <= len).then_some(size)
}

// Data in two parts, as if they were joined: what a store keeps of a character, and what a block brings. Complete with the bytes that the
// picture takes, or incomplete.
pub fn judge_joined(
    class: u8,
    width: u16,
    height: u16,
    kept: &[u8],
    more: &[u8],
) -> Result<Option<usize>, PastWidth>
    ensures { result ≡ judge class width height (kept.now ++ more.now) }
{
    if class == size::BITMAP {
        return Ok(judge_bitmap(kept.len() + more.len(), width, height));
    }
    Ok(runs::scan_joined(kept, more, width, height)?.used())
}

// The data of a first block.
pub fn judge_first(
    class: u8,
    width: u16,
    height: u16,
    bytes: &[u8],
) -> Result<Option<usize>, PastWidth>
    ensures { result ≡ judge class width height bytes.now }
{
    if class == size::BITMAP {
        return Ok(judge_bitmap(bytes.len(), width, height));
    }
    Ok(runs::scan(bytes, width, height)?.used())
}

fn held_by(judged: Result<Option<usize>, PastWidth>, len: usize) -> Held
    ensures { result ≡ held_by judged len }
{
    match judged {
        Ok(Some(n)) if n == len => Held::Whole,
        Ok(None) => Held::Unfinished,
        _ => Held::Foreign,
    }
}

// What a store holds as a character's data.
pub fn held_in(class: u8, width: u16, height: u16, bytes: &[u8]) -> Held
    ensures { result ≡ held class width height bytes.now }
{
    if size::DATA_LIMIT < bytes.len() {
        return Held::Foreign;
    }
    held_by(judge_first(class, width, height, bytes), bytes.len())
}

// Draws one row of a character's picture data into a row's bytes.
pub fn draw_row(class: u8, width: u16, bytes: &[u8], row: u16, out: &mut [u8])
    requires { (0 < width) × (length out.old ≡ row_size width) }
    ensures { out.new ≡ row_bytes class width bytes.now row }
{
    if class == size::BITMAP {
        bitmap::draw_bitmap_row(width, bytes, row, out);
    } else {
        compressed::draw_runs_row(width, bytes, row, out);
    }
}

// Draws the whole picture of a character's data into the picture's bytes.
pub fn draw_picture(class: u8, width: u16, height: u16, bytes: &[u8], out: &mut [u8])
    requires { (0 < width) × (length out.old ≡ picture_size width height) }
    ensures { out.new ≡ picture class width bytes.now height }
{
    if class == size::BITMAP {
        bitmap::draw_bitmap(width, height, bytes, out);
    } else {
        compressed::draw_runs(width, height, bytes, out);
    }
}
