// The kept fonts of a store one after the other, by rising number, for callers that know nothing of its form.
ghost use Rattle.std.specs.Prelude.{◌≡◌};
ghost use Rattle.form.specs.Records.{RecordPlace};
ghost use Rattle.form.specs.Fonts.{fonts_at};

use crate::layout::{
    CHARACTER_RECORD, FONT_KEPT_AT, FONT_KIND, FONT_RECORD, HEADER_BYTES, KIND_AT, NUMBER_AT,
};
use crate::number;

// A font: its number, its kept bytes, and where in the store they stand.
#[derive(Clone, Copy)]
pub struct KeptFont<'a> {
    pub number: u32,
    pub kept: &'a [u8],
    pub kept_at: usize,
}

// Kept fonts of a store one after the other.
#[derive(Clone, Copy)]
pub struct KeptFonts<'a> {
    store: &'a [u8],
    at: usize,
}

impl<'a> KeptFonts<'a> {
    ghost use Rattle.form.specs.FontsLeft.{fonts_to_come, FontsOn};

    // Those from a place of the run of records on.
    pub fn starting_at(s: &'a [u8], at: usize) -> KeptFonts<'a>
        requires { RecordPlace s.now at }
        ensures { FontsOn result × (result.store.now ≡ s.now) × (fonts_to_come result ≡ fonts_at s.now at) × (result.at ≡ at) }
    {
        KeptFonts { store: s, at }
    }
}

impl<'a> Iterator for KeptFonts<'a> {
    ghost use Rattle.std.specs.Iterator.{item_count};
    ghost use Rattle.form.specs.FontsLeft.{fonts_to_come, FontsOn, FontGiven};

    type Item = KeptFont<'a>;

    ghost can_next = { FontsOn };

    ghost next_gives = { FontGiven };

    ghost remaining = { item_count fonts_to_come };

    fn next(&mut self) -> Option<KeptFont<'a>> {
        let s = self.store;
        let mut p = self.at;
        // Characters are passed over by the lengths of their records.
        while CHARACTER_RECORD <= s.len() - p {
            let len = number::le32(s, p);
            if len == 0 {
                return None;
            }
            if number::le16(s, p + KIND_AT) == FONT_KIND {
                let kept_at = p + FONT_KEPT_AT;
                self.at = p + FONT_RECORD;
                return Some(KeptFont {
                    number: number::le16(s, p + NUMBER_AT) as u32,
                    kept: &s[kept_at..kept_at + HEADER_BYTES],
                    kept_at,
                });
            }
            p += len;
        }
        None
    }
}
