// Document 01's refusals: what a call says that does nothing, by name, by number and in words.
#![tactic(auto)]

ghost use Rattle.std.specs.Prelude.{◌≡◌};
ghost use Rattle.refusals.specs.Refusals.{refusal_number, number_or_0};

use std::error::Error;
use std::fmt;

// Why a call is refused, in the order of document 01's numbers.
#[derive(Clone, Copy, Debug, PartialEq, Eq)]
pub enum Refused {
    NotStore,
    OutOfRange,
    BlockLength,
    NotTaken,
    FieldValue,
    NoFont,
    NoCharacter,
    RunPastRow,
    TooLarge,
    NoRoom,
    NoneToChoose,
    OutputShort,
    StreamBroken,
    OutsideProfile,
}

// Its number, as the header has it.
impl From<Refused> for u32 {
    ghost from_gives = { λ r n. n ≡ refusal_number r };

    fn from(r: Refused) -> u32 {
        match r {
            Refused::NotStore => 1,
            Refused::OutOfRange => 2,
            Refused::BlockLength => 3,
            Refused::NotTaken => 4,
            Refused::FieldValue => 5,
            Refused::NoFont => 6,
            Refused::NoCharacter => 7,
            Refused::RunPastRow => 8,
            Refused::TooLarge => 9,
            Refused::NoRoom => 10,
            Refused::NoneToChoose => 11,
            Refused::OutputShort => 12,
            Refused::StreamBroken => 13,
            Refused::OutsideProfile => 14,
        }
    }
}

// Its words, as the header has them.
impl fmt::Display for Refused {
    fn fmt<W: fmt::Write>(&self, f: &mut fmt::Formatter<W>) -> fmt::Result {
        f.write_str(match self {
            Refused::NotStore => "not a store as these calls leave it",
            Refused::OutOfRange => "a number out of range",
            Refused::BlockLength => "the block's length is wrong",
            Refused::NotTaken => "format, descriptor size or class not taken",
            Refused::FieldValue => "a field's value is not allowed",
            Refused::NoFont => "no such font",
            Refused::NoCharacter =>
                "no such character, or a continuation not for the open character",
            Refused::RunPastRow => "a run passes the row's end",
            Refused::TooLarge => "the character is too large",
            Refused::NoRoom => "no room in the store",
            Refused::NoneToChoose => "no font to choose",
            Refused::OutputShort => "the output is too short",
            Refused::StreamBroken => "the stream is broken",
            Refused::OutsideProfile => "the font is outside the profile of spine labels",
        })
    }
}

impl Error for Refused {}

// What a call answers that has no other number to give: 0 "done", or the refusal's number.
pub fn answer(r: Result<(), Refused>) -> u32
    ensures { result ≡ number_or_0 r }
{
    match r {
        Ok(_) => 0,
        Err(refusal) => u32::from(refusal),
    }
}
