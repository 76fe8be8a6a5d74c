// Turns a picture by a half: each row mirrored, the rows from the bottom.
ghost use Rattle.std.specs.Prelude.{◌≡◌, ℕ, ◌<◌, ◌^◌, length, get_or, map, reverse};
ghost use Rattle.turning.specs.Mirror.{mirror};
ghost use Rattle.turning.specs.MirrorBytes.{joined_dots, half_byte};
ghost use Rattle.turning.specs.Turn.{turned};

use crate::picture::Picture;

// The 256 bytes mirrored: the entry of a byte has its dots in reverse.
static MIRRORED: [u8; 256] = [
    0, 128, 64, 192, 32, 160, 96, 224, 16, 144, 80, 208, 48, 176, 112, 240, 8, 136, 72, 200, 40,
    168, 104, 232, 24, 152, 88, 216, 56, 184, 120, 248, 4, 132, 68, 196, 36, 164, 100, 228, 20,
    148, 84, 212, 52, 180, 116, 244, 12, 140, 76, 204, 44, 172, 108, 236, 28, 156, 92, 220, 60,
    188, 124, 252, 2, 130, 66, 194, 34, 162, 98, 226, 18, 146, 82, 210, 50, 178, 114, 242, 10, 138,
    74, 202, 42, 170, 106, 234, 26, 154, 90, 218, 58, 186, 122, 250, 6, 134, 70, 198, 38, 166, 102,
    230, 22, 150, 86, 214, 54, 182, 118, 246, 14, 142, 78, 206, 46, 174, 110, 238, 30, 158, 94,
    222, 62, 190, 126, 254, 1, 129, 65, 193, 33, 161, 97, 225, 17, 145, 81, 209, 49, 177, 113, 241,
    9, 137, 73, 201, 41, 169, 105, 233, 25, 153, 89, 217, 57, 185, 121, 249, 5, 133, 69, 197, 37,
    165, 101, 229, 21, 149, 85, 213, 53, 181, 117, 245, 13, 141, 77, 205, 45, 173, 109, 237, 29,
    157, 93, 221, 61, 189, 125, 253, 3, 131, 67, 195, 35, 163, 99, 227, 19, 147, 83, 211, 51, 179,
    115, 243, 11, 139, 75, 203, 43, 171, 107, 235, 27, 155, 91, 219, 59, 187, 123, 251, 7, 135, 71,
    199, 39, 167, 103, 231, 23, 151, 87, 215, 55, 183, 119, 247, 15, 143, 79, 207, 47, 175, 111,
    239, 31, 159, 95, 223, 63, 191, 127, 255,
];

// A byte with its dots in reverse.
fn mirrored(byte: u8) -> u8
    ensures { result ≡ mirror byte }
{
    MIRRORED[usize::from(byte)]
}

// Eight of the sixteen dots of two bytes, from a place of the left one on.
fn join(left: u8, right: u8, place: usize) -> u8
    requires { place < 8 }
    ensures { result ≡ joined_dots left right (2 ^ place) }
{
    let both = u32::from(left) * 256 + u32::from(right);
    ((both << place) / 256 % 256) as u8
}

// Mirrors a row, and moves it left by the places of its padding.
fn mirror_row(row: &[u8], out: &mut [u8], padding: usize)
    requires { (0 < length row.now) × (length out.old ≡ length row.now) × (padding < 8) }
    ensures { (q : ℕ) → q < length row.now → get_or out.new q 0 ≡ half_byte row.now padding q }
{
    let last = row.len() - 1;
    let mut left = mirrored(row[last]);
    for q in 0..last {
        let right = mirrored(row[last - 1 - q]);
        out[q] = join(left, right, padding);
        left = right;
    }
    out[last] = join(left, 0, padding);
}

// Mirrors all rows, from the bottom.
fn mirror_rows(picture: Picture<'_>, out: &mut [u8])
    requires { length out.old ≡ length picture.bytes.now }
    ensures { out.new ≡ turned 2 picture.entry.width picture.entry.height picture.entry.bytes.now }
{
    let n = picture.row_size();
    for row in 0..picture.height {
        let from = (picture.height - 1 - row) * n;
        let to = row * n;
        mirror_row(
            &picture.bytes[from..from + n],
            &mut out[to..to + n],
            n * 8 - picture.width,
        );
    }
}

// Mirrors eight bytes.
fn mirror_eight(bytes: &[u8; 8], out: &mut [u8])
    requires { length out.old ≡ 8 }
    ensures { out.new ≡ map mirror (reverse bytes.now) }
{
    for k in 0..8 {
        out[k] = mirrored(bytes[7 - k]);
    }
}

// Mirrors bytes, from the last.
fn mirror_run(bytes: &[u8], out: &mut [u8])
    requires { length out.old ≡ length bytes.now }
    ensures { out.new ≡ map mirror (reverse bytes.now) }
{
    for k in 0..bytes.len() {
        out[k] = mirrored(bytes[bytes.len() - 1 - k]);
    }
}

// The same, eight bytes at a time.
fn mirror_bytes(bytes: &[u8], out: &mut [u8])
    requires { length out.old ≡ length bytes.now }
    ensures { out.new ≡ map mirror (reverse bytes.now) }
{
    let mut rest = bytes;
    while let Some((before, eight)) = rest.split_last_chunk::<8>() {
        let to = out.len() - rest.len();
        mirror_eight(eight, &mut out[to..to + 8]);
        rest = before;
    }
    let to = out.len() - rest.len();
    mirror_run(rest, &mut out[to..]);
}

// Turns a picture by a half. Without padding, its bytes are mirrored as one run.
pub(crate) fn half_turn(picture: Picture<'_>, out: &mut [u8])
    requires { length out.old ≡ length picture.bytes.now }
    ensures { out.new ≡ turned 2 picture.entry.width picture.entry.height picture.entry.bytes.now }
{
    if picture.width % 8 == 0 {
        mirror_bytes(picture.bytes, out);
    } else {
        mirror_rows(picture, out);
    }
}
