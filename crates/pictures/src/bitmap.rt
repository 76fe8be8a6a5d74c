// Class 1 pictures: the data is the picture's bytes.
ghost use Rattle.std.specs.Prelude.{◌≡◌, ℕ, ◌<◌, List, length, slice_index};
ghost use Rattle.pictures.specs.Size.{bitmap_class, row_size, picture_size};
ghost use Rattle.pictures.specs.Dots.{pack};
ghost use Rattle.pictures.specs.Rows.{bitmap_row, picture};
ghost use Rattle.pictures.specs.Drawing.{padded};

use crate::{dots, size};

// Copies data as far as it goes, and white bytes after it.
fn copy_padded(bytes: &[u8], out: &mut [u8])
    ensures { out.new ≡ padded (length out.old) bytes.now }
{
    let n = bytes.len().min(out.len());
    out[..n].copy_from_slice(&bytes[..n]);
    out[n..].fill(0);
}

// Draws one row.
pub(crate) fn draw_bitmap_row(width: u16, bytes: &[u8], row: u16, out: &mut [u8])
    requires { (0 < width) × (length out.old ≡ row_size width) }
    ensures { out.new ≡ pack (row_size width) (bitmap_row width bytes.now row) }
{
    let n = out.len();
    let from = (usize::from(row) * n).min(bytes.len());
    copy_padded(&bytes[from..], out);
    out[n - 1] &= dots::kept_bits(width);
}

// Makes the bits beyond the width white in each row of a copy of the data.
fn clip_rows(width: u16, height: u16, out: &mut [u8])
    requires { (0 < width) × (length out.old ≡ picture_size width height) }
    ensures { (d : List ℕ) → ((i : ℕ) → slice_index d i < 256) → out.old ≡ padded (picture_size width height) d
        → out.new ≡ picture bitmap_class width d height }
{
    let n = size::row_size(width);
    let kept = dots::kept_bits(width);
    for row in 0..usize::from(height) {
        out[row * n + (n - 1)] &= kept;
    }
}

// Draws all rows.
pub(crate) fn draw_bitmap(width: u16, height: u16, bytes: &[u8], out: &mut [u8])
    requires { (0 < width) × (length out.old ≡ picture_size width height) }
    ensures { out.new ≡ picture bitmap_class width bytes.now height }
{
    copy_padded(bytes, out);
    if width % 8 == 0 {
        return;
    }
    clip_rows(width, height, out);
}
