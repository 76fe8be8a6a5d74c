// W-201, one sheet, one call: what is done once for a sheet of requests, and what is done for each.
#![tactic(auto)]

ghost use Rattle.std.specs.Prelude.{◌≡◌, Some, IfOk};
ghost use Rattle.refusals.specs.Refusals.{number_or_0};
ghost use Rattle.form.specs.Records.{Begun};
ghost use Rattle.choice.specs.Choosing.{choosing};
ghost use Rattle.sheet.specs.Sheet.{answer_of, sheet_refusal};

use choice::{Chosen, Request};
use form::records;
use refusals::Refused;

const MOST_REQUESTS: usize = 64;

// The answer to one request of a sheet, as C lays it out: the font's number, or the refusal's.
#[repr(C)]
#[derive(Clone, Copy, Debug, PartialEq, Eq)]
pub struct SheetAnswer {
    pub font: u32,
    pub refusal: u32,
}

// The checks of a sheet of so many requests, with room for so many answers: the place where the store's fonts begin. The store is checked here, once.
pub fn begin_sheet(store: &[u8], requests: usize, room: usize) -> Result<usize, Refused>
    ensures refusal { number_or_0 result ≡ sheet_refusal store.now requests room }
    ensures begun { IfOk result (λ from. Begun store.now (Some from)) }
{
    let from = records::begin_records(store).ok_or(Refused::NotStore)?;
    if MOST_REQUESTS < requests {
        return Err(Refused::OutOfRange);
    }
    if room < requests {
        return Err(Refused::OutputShort);
    }
    Ok(from)
}

// What a choice answers as the answer of a sheet.
pub fn answer_of(a: Result<Chosen, Refused>) -> SheetAnswer
    ensures { result ≡ answer_of a }
{
    match a {
        Ok(chosen) => SheetAnswer {
            font: chosen.number,
            refusal: 0,
        },
        Err(refusal) => SheetAnswer {
            font: 0,
            refusal: u32::from(refusal),
        },
    }
}

// The answer to one request, on a buffer that is known to be a store, whose fonts begin at a place.
pub fn answer_request(store: &[u8], from: usize, r: Request) -> SheetAnswer
    requires { Begun store.now (Some from) }
    ensures { result ≡ answer_of (choosing store.now r) }
{
    answer_of(choice::choose_among(store, from, r))
}
