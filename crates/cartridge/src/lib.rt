// W-208, the old cartridge as a second place: the choice from two stores, with the chosen font's record as a part of whichever holds it.
#![tactic(auto)]

ghost use Rattle.std.specs.Prelude.{◌≡◌, IfOk};
ghost use Rattle.choice.specs.Choosing.{choosing_from_two};
ghost use Rattle.choice.specs.Scores.{picked_choice, PickedAt};
ghost use Rattle.cartridge.specs.Cartridge.{answering_from_two, part_of, fits, record_part};

use choice::{Picked, Request};
use form::layout::{FONT_KEPT_AT, FONT_RECORD};
use form::records;
use refusals::Refused;

const SOFT: u32 = 1;

const CARTRIDGE: u32 = 2;

// The numbers of an answer, as C lays them out: the chosen font, the store that holds it, 1 soft or 2 cartridge, and its record's place there; or the refusal.
#[repr(C)]
#[derive(Clone, Copy, Debug, PartialEq, Eq)]
pub struct RecordAnswer {
    pub refusal: u32,
    pub font: u32,
    pub which: u32,
    pub place: u64,
}

// The whole answer: its numbers, and the chosen font's record itself, in the store that holds it.
#[derive(Clone, Copy)]
pub struct ChosenRecord<'a> {
    pub part: &'a [u8],
    pub answer: RecordAnswer,
}

// The font that is chosen from two buffers. Each is checked once and its fonts are passed over once.
fn pick_from_two(soft: &[u8], cartridge: &[u8], r: Request) -> Result<Picked, Refused>
    ensures chosen { picked_choice result ≡ choosing_from_two soft.now cartridge.now r }
    ensures stands { IfOk result (PickedAt soft.now cartridge.now) }
{
    let a = records::begin_records(soft).ok_or(Refused::NotStore)?;
    let b = records::begin_records(cartridge).ok_or(Refused::NotStore)?;
    choice::choose_among_two(soft, a, cartridge, b, r)
}

// The numbers of the choice from two stores: all that C is told.
pub fn answer_from_two<'a>(soft: &'a [u8], cartridge: &'a [u8], r: Request) -> RecordAnswer
    ensures { result ≡ answering_from_two soft.now cartridge.now r }
{
    match pick_from_two(soft, cartridge, r) {
        Ok(p) => RecordAnswer {
            refusal: 0,
            font: p.chosen.number,
            which: if p.chosen.soft { SOFT } else { CARTRIDGE },
            place: (p.kept - FONT_KEPT_AT) as u64,
        },
        Err(refusal) => RecordAnswer {
            refusal: u32::from(refusal),
            font: 0,
            which: 0,
            place: 0,
        },
    }
}

// Whether a record that begins at a place ends within n bytes.
fn ends_within(n: usize, place: u64) -> bool
    ensures { result ≡ fits n place }
{
    if n < FONT_RECORD {
        return false;
    }
    place <= (n - FONT_RECORD) as u64
}

// The record that the numbers name, as a part of the store that holds it; an empty part of the soft store for a refusal.
pub fn record_of<'a>(soft: &'a [u8], cartridge: &'a [u8], a: RecordAnswer) -> &'a [u8]
    ensures { part_of result ≡ record_part (part_of soft.entry) (part_of cartridge.entry) a }
{
    let none = &soft[..0];
    let store = match a.which {
        SOFT => soft,
        CARTRIDGE => cartridge,
        _ => return none,
    };
    if !ends_within(store.len(), a.place) {
        return none;
    }
    let at = a.place as usize;
    &store[at..at + FONT_RECORD]
}

// "The answer gives the chosen font's record itself, as the part of whichever store holds it, without copying".
pub fn choose_from_two<'a>(soft: &'a [u8], cartridge: &'a [u8], r: Request) -> ChosenRecord<'a>
    ensures { (result.answer ≡ answering_from_two soft.now cartridge.now r) × (part_of result.part ≡ record_part (part_of soft.entry) (part_of cartridge.entry) result.answer) }
{
    let answer = answer_from_two(soft, cartridge, r);
    ChosenRecord {
        part: record_of(soft, cartridge, answer),
        answer,
    }
}
