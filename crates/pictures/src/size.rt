// The classes of picture data, and the bytes of a row and of a picture.
ghost use Rattle.std.specs.Prelude.{◌≡◌, ◌^◌, ◌<◌};
ghost use Rattle.pictures.specs.Size.{row_size, picture_size};

pub const BITMAP: u8 = 1;

pub const RUNS: u8 = 2;

// A picture has at most so many dots to a side.
pub const SIDE_LIMIT: u16 = 16384;

// A picture, and a character's kept data, have at most so many bytes.
pub const DATA_LIMIT: usize = 32768;

// The bytes that so many dots of a row take.
pub fn bytes_across(dots: usize) -> usize
    requires { dots < 2 ^ 32 }
    ensures { result ≡ row_size dots }
{
    (dots + 7) / 8
}

// The bytes of a row.
pub fn row_size(width: u16) -> usize
    ensures { result ≡ row_size width }
{
    bytes_across(usize::from(width))
}

// The bytes of a picture.
pub fn picture_size(width: u16, height: u16) -> usize
    ensures { result ≡ picture_size width height }
{
    usize::from(height) * row_size(width)
}
