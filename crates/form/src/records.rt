// The records of a store one after the other, for callers that know nothing of its form.
ghost use Rattle.std.specs.Prelude.{◌≡◌, ◌-◌, take, drop};
ghost use Rattle.form.specs.Records.{RecordPlace, Begun, Between, records_at};

use crate::layout::{
    CHARACTER_KEPT_AT, CHARACTER_RECORD, CODE_AT, FONT_KEPT_AT, FONT_KIND, KIND_AT, MARK_RECORD,
    NUMBER_AT,
};
use crate::{number, walk};

// A font with its kept bytes, or a character with its kept bytes and its data after them.
#[derive(Clone, Copy)]
pub enum Record<'a> {
    Font {
        number: u32,
        kept: &'a [u8],
    },
    Character {
        number: u32,
        code: u32,
        bytes: &'a [u8],
    },
}

// Records of a store one after the other.
#[derive(Clone, Copy)]
pub struct Records<'a> {
    left: &'a [u8],
}

// Checks a buffer: where the run of records begins, if it is a store.
pub fn begin_records(s: &[u8]) -> Option<usize>
    ensures { Begun s.now result }
{
    walk::check(s, 0)?;
    Some(MARK_RECORD)
}

impl<'a> Records<'a> {
    ghost use Rattle.std.specs.Prelude.{List};
    ghost use Rattle.form.specs.Model.{Rec};
    ghost use Rattle.form.specs.RecordsLeft.{records_left, RunsOn};

    // Those from a place of the run on.
    pub fn starting_at(s: &'a [u8], at: usize) -> Records<'a>
        requires { RecordPlace s.now at }
        ensures { RunsOn result × (records_left result ≡ records_at s.now at) × (result.left.now ≡ drop at s.now) }
    {
        Records { left: &s[at..] }
    }

    // Those from one place of the run up to another.
    pub fn between(s: &'a [u8], lo: usize, hi: usize) -> Records<'a>
        requires { (rs : List Rec) × Between s.now lo hi rs }
        ensures { RunsOn result × ((rs : List Rec) → Between s.now lo hi rs → records_left result ≡ rs) × (result.left.now ≡ take (hi - lo) (drop lo s.now)) }
    {
        Records { left: &s[lo..hi] }
    }

    // The bytes from the next record on: their length tells its place.
    pub fn rest(self) -> &'a [u8]
        ensures { result.now ≡ self.entry.left.now }
    {
        let Records { left } = self;
        left
    }
}

impl<'a> Iterator for Records<'a> {
    ghost use Rattle.std.specs.Iterator.{item_count};
    ghost use Rattle.form.specs.RecordsLeft.{records_left, RunsOn, RecordGiven};

    type Item = Record<'a>;

    ghost can_next = { RunsOn };

    ghost next_gives = { RecordGiven };

    ghost remaining = { item_count records_left };

    fn next(&mut self) -> Option<Record<'a>> {
        let s = self.left;
        if s.len() < CHARACTER_RECORD {
            return None;
        }
        let len = number::le32(s, 0);
        if len == 0 {
            return None;
        }
        self.left = &s[len..];
        let number = number::le16(s, NUMBER_AT) as u32;
        if number::le16(s, KIND_AT) == FONT_KIND {
            let kept = &s[FONT_KEPT_AT..len];
            return Some(Record::Font { number, kept });
        }
        let code = number::le16(s, CODE_AT) as u32;
        let bytes = &s[CHARACTER_KEPT_AT..len];
        Some(Record::Character {
            number,
            code,
            bytes,
        })
    }
}
