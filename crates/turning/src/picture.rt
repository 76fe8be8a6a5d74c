// A picture that is turned, with its sides.
ghost use Rattle.std.specs.Prelude.{◌≡◌, ◌≤◌, ◌<◌, true, false, ℕ, length, get_or, take, MatchResult};
ghost use Rattle.pictures.specs.Size.{side_limit, row_size, picture_size};
ghost use Rattle.turning.specs.Turn.{is_picture};

use pictures::size;
use pictures::size::bytes_across;
use refusals::Refused;

// The bytes of a picture, and its sides.
#[derive(Clone, Copy)]
pub struct Picture<'a> {
    pub bytes: &'a [u8],
    pub width: usize,
    pub height: usize,
    ghost wide: { (0 < width) × (width ≤ side_limit) },
    ghost high: { (0 < height) × (height ≤ side_limit) },
    ghost whole: { length bytes.now ≡ picture_size width height },
    ghost fit: { (i : ℕ) → get_or bytes.now i 0 < 256 },
}

impl<'a> Picture<'a> {
    // The picture of these sides that stands first among bytes.
    pub(crate) fn new(bytes: &'a [u8], width: u32, height: u32) -> Result<Picture<'a>, Refused>
        ensures { MatchResult result
            (λ p. (is_picture width height (length bytes.now) ≡ true) × (p.width ≡ width) × (p.height ≡ height) × (p.bytes.now ≡ take (picture_size width height) bytes.now))
            (λ r. (is_picture width height (length bytes.now) ≡ false) × (r ≡ Refused.OutOfRange)) }
    {
        let sides = 1..=u32::from(size::SIDE_LIMIT);
        if !sides.contains(&width) || !sides.contains(&height) {
            return Err(Refused::OutOfRange);
        }
        let width = width as usize;
        let height = height as usize;
        let size = height * bytes_across(width);
        if bytes.len() < size {
            return Err(Refused::OutOfRange);
        }
        let bytes = &bytes[..size];
        Ok(Picture {
            bytes,
            width,
            height,
        })
    }

    // The bytes of a row.
    pub(crate) fn row_size(self) -> usize
        ensures { result ≡ row_size self.entry.width }
    {
        bytes_across(self.width)
    }

    // The bytes of a row of the picture turned by a quarter.
    pub(crate) fn column_size(self) -> usize
        ensures { result ≡ row_size self.entry.height }
    {
        bytes_across(self.height)
    }
}
