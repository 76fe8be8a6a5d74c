// The black dots of class 1 data.
ghost use Rattle.std.specs.Prelude.{◌≡◌, ◌≤◌, ◌<◌, length};
ghost use Rattle.pictures.specs.Size.{bitmap_class, picture_size, data_limit};
ghost use Rattle.blackdots.specs.Black.{black_dots};

use crate::{beyond, ones};
use pictures::size;

// The black dots of a class 1 picture: all ones of its data, but for those beyond the width.
pub(crate) fn black_in_bitmap(width: u16, height: u16, b: &[u8]) -> u32
    requires { (0 < width) × (length b.now ≤ picture_size width height) × (length b.now ≤ data_limit) }
    ensures { result ≡ black_dots bitmap_class width height b.now }
{
    let all = ones::ones_in(b);
    if width % 8 == 0 {
        return all;
    }
    all - beyond::ones_beyond(b, size::row_size(width), beyond::beyond(width))
}
