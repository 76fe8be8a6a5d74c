// The lines of a store's fonts, by rising number.
ghost use Rattle.std.specs.Prelude.{◌+◌, ◌≤◌, length};
ghost use Rattle.form.specs.Records.{RecordPlace};
ghost use Rattle.form.specs.Fonts.{fonts_at, fonts_of};
ghost use Rattle.text.specs.Wrote.{Wrote};
ghost use Rattle.listing.specs.Line.{lines};

use crate::line::write_font;
use form::kept_fonts::KeptFonts;
use form::records;

// Those from a place of the store on. A line is shorter than the record of its font, so that the store's length is room enough.
fn write_from(out: &mut [u8], at: usize, s: &[u8], from: usize) -> usize
    requires { (at + length s.now ≤ length out.old) × RecordPlace s.now from }
    ensures wrote { Wrote out.old at (lines s.now (fonts_at s.now from)) result out.new }
    ensures upper_bound { result ≤ at + length s.now }
{
    let mut to = at;
    for font in KeptFonts::starting_at(s, from) {
        to = write_font(out, to, s, font.number);
    }
    to
}

pub fn write_lines(out: &mut [u8], at: usize, s: &[u8]) -> usize
    requires { at + length s.now ≤ length out.old }
    ensures wrote { Wrote out.old at (lines s.now (fonts_of s.now)) result out.new }
    ensures upper_bound { result ≤ at + length s.now }
{
    let Some(from) = records::begin_records(s) else {
        return at;
    };
    write_from(out, at, s, from)
}
