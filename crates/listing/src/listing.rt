// The whole text.
ghost use Rattle.std.specs.Prelude.{◌≤◌, length};
ghost use Rattle.std.specs.Counts.{IsPrefixLen};
ghost use Rattle.text.specs.Wrote.{Wrote};
ghost use Rattle.listing.specs.Listing.{listing, text_room};

use crate::lines::write_lines;
use crate::summary::write_summary;
use store::fonts;
use stream::reading;
use stream::writing::write_bytes;

// The longest input that is read.
pub const MOST: usize = 32768;

// The bytes of the store that it is read into.
const STORE: usize = 16384;

// Room for every text: the heading, no more bytes of lines than the store has, and the last line.
pub const TEXT: usize = STORE + 256;

// Writes the whole text for this input, and returns its length.
pub fn list(input: &[u8], text: &mut [u8]) -> usize
    requires { text_room ≤ length text.old }
    ensures prefix_len { IsPrefixLen result text.new }
    ensures wrote { Wrote text.old 0 (listing input.now) result text.new }
{
    if MOST < input.len() {
        return write_bytes(text, 0, b"input too long\n");
    }
    let mut store = [0u8; STORE];
    // Not refused, since a store may have this length.
    let _ = fonts::make_fresh(&mut store);
    let read = reading::read_stream(&mut store, input).unwrap();
    let heading = write_bytes(
        text,
        0,
        b"id set spacing pitch height style weight face chars\n",
    );
    let end = write_lines(text, heading, &store);
    write_summary(text, end, read)
}
