// The black dots of a picture of either class.
ghost use Rattle.std.specs.Prelude.{◌≡◌, ◌≤◌, ◌<◌, length};
ghost use Rattle.pictures.specs.Size.{bitmap_class, picture_size, data_limit};
ghost use Rattle.blackdots.specs.Black.{black_dots};

use crate::{bitmap, compressed};
use pictures::size;

pub fn black_dots(class: u8, width: u16, height: u16, bytes: &[u8]) -> u32
    requires { (0 < width) × (class ≡ bitmap_class → length bytes.now ≤ picture_size width height) × (length bytes.now ≤ data_limit) }
    ensures { result ≡ black_dots class width height bytes.now }
{
    if class == size::BITMAP {
        return bitmap::black_in_bitmap(width, height, bytes);
    }
    compressed::black_in_runs(width, height, bytes)
}
