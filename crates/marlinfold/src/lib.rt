// The calls, which `marlinfold_c` exports to C. Each is one call of a crate below, save the sheet, a loop of one, and its contract is its line of `outcome`.
#![tactic(auto)]

ghost use Rattle.std.specs.Prelude.{◌≡◌, true, false, ℕ, List, ◌∷◌, []};
ghost use Rattle.choice.specs.Request.{request_of};
ghost use Rattle.choice.specs.Choosing.{refusal_of, font_of};
ghost use Rattle.stream.specs.Reading.{end_answer};
ghost use Rattle.stream.specs.Underway.{read_answer};
ghost use Rattle.stream.specs.Written.{written_of};
ghost use Rattle.salvage.specs.Onward.{with_both};
ghost use Rattle.marlinfold.specs.Calls.{make_fresh, download_font, download_character, remove_font, remove_character, choose_font, tell_font, tell_character, draw_row, draw_picture, write_font, read_stream, choose_sheet, turn_picture, check_profile, write_profiled, choose_from_two, add_figures, salvage_stream, answer_numbers, answered, outcome};

use cartridge::RecordAnswer;
use choice::{Chosen, Request};
use collection::adding;
use profile::check;
use profile::check::ProfileChecked;
use refusals::Refused;
use sheet::SheetAnswer;
use store::download::{BadRun, Downloaded};
use store::telling::Told;
use store::{characters, download, drawing, fonts};
use stream::reading::{CommandCounts, Stopped};
use stream::{reading, write};
use turning::turn;

// The chosen font's number, or the refusal, in the order in which C is told them.
#[repr(C)]
#[derive(Clone, Copy)]
pub struct FontChosen {
    pub refusal: u32,
    pub font: u32,
}

// The length of a font as it is written, or the refusal.
#[repr(C)]
#[derive(Clone, Copy)]
pub struct Written {
    pub refusal: u32,
    pub length: u32,
}

// The commands done and refused, the place of a 13, and the run of the first refusal 8.
#[repr(C)]
#[derive(Clone, Copy)]
pub struct StreamRead {
    pub refusal: u32,
    pub done: u64,
    pub refused: u64,
    pub place: u64,
    pub bad: BadRun,
}

// The stretches listed, and the commands done and refused.
#[repr(C)]
#[derive(Clone, Copy)]
pub struct Salvaged {
    pub refusal: u32,
    pub stretches: u64,
    pub done: u64,
    pub refused: u64,
}

pub fn mf_make_fresh(store: &mut [u8]) -> u32
    ensures { answered result [] store.new [] ≡ outcome make_fresh store.old }
{
    refusals::answer(fonts::make_fresh(store))
}

pub fn mf_download_font(store: &mut [u8], block: &[u8], font: u32) -> u32
    ensures { answered result [] store.new [] ≡ outcome (download_font font block.now) store.old }
{
    refusals::answer(fonts::download_font(store, block, font))
}

pub fn mf_download_character(store: &mut [u8], block: &[u8], font: u32, code: u32) -> Downloaded
    ensures { answered result.refusal (result.bad.row ∷ result.bad.filled ∷ result.bad.run ∷ []) store.new [] ≡ outcome (download_character font code block.now) store.old }
{
    download::download_character(store, block, font, code)
}

pub fn mf_remove_font(store: &mut [u8], font: u32) -> u32
    ensures { answered result [] store.new [] ≡ outcome (remove_font font) store.old }
{
    refusals::answer(fonts::remove_font(store, font))
}

pub fn mf_remove_character(store: &mut [u8], font: u32, code: u32) -> u32
    ensures { answered result [] store.new [] ≡ outcome (remove_character font code) store.old }
{
    refusals::answer(characters::remove_character(store, font, code))
}

fn font_chosen(a: Result<Chosen, Refused>) -> FontChosen
    ensures { (result.refusal ≡ refusal_of a) × (result.font ≡ font_of a) }
{
    let e = sheet::answer_of(a);
    FontChosen {
        refusal: e.refusal,
        font: e.font,
    }
}

// The numbers of a request as C passes them, one by one.
fn request_by(
    symbol_set: u32,
    spacing: u32,
    pitch: u32,
    height: u32,
    style: u32,
    weight: u32,
    typeface: u32,
    orientation: u32,
    mode: u32,
) -> Request
    ensures { result ≡ request_of symbol_set spacing pitch height style weight typeface orientation mode }
{
    Request {
        symbol_set: symbol_set,
        spacing: spacing,
        pitch: pitch,
        height: height,
        style: style,
        weight: weight,
        typeface: typeface,
        orientation: orientation,
        mode: mode,
    }
}

pub fn mf_choose(
    store: &[u8],
    symbol_set: u32,
    spacing: u32,
    pitch: u32,
    height: u32,
    style: u32,
    weight: u32,
    typeface: u32,
    orientation: u32,
    mode: u32,
) -> FontChosen
    ensures { answered result.refusal (result.font ∷ []) store.now [] ≡ outcome (choose_font (request_of symbol_set spacing pitch height style weight typeface orientation mode)) store.now }
{
    let r = request_by(
        symbol_set,
        spacing,
        pitch,
        height,
        style,
        weight,
        typeface,
        orientation,
        mode,
    );
    font_chosen(choice::choose(store, r))
}

pub fn mf_tell_font(store: &[u8], out: &mut [u8], font: u32) -> Told
    ensures { answered result.refusal (result.count ∷ []) store.now out.new ≡ outcome (tell_font font out.old) store.now }
{
    fonts::tell_font(store, out, font)
}

pub fn mf_tell_character(store: &[u8], out: &mut [u8], font: u32, code: u32) -> Told
    ensures { answered result.refusal (result.count ∷ []) store.now out.new ≡ outcome (tell_character font code out.old) store.now }
{
    characters::tell_character(store, out, font, code)
}

pub fn mf_draw_row(store: &[u8], out: &mut [u8], font: u32, code: u32, row: u32) -> u32
    ensures { answered result [] store.now out.new ≡ outcome (draw_row font code row out.old) store.now }
{
    refusals::answer(drawing::draw_row(store, out, font, code, row))
}

pub fn mf_draw_picture(store: &[u8], out: &mut [u8], font: u32, code: u32) -> u32
    ensures { answered result [] store.now out.new ≡ outcome (draw_picture font code out.old) store.now }
{
    refusals::answer(drawing::draw_picture(store, out, font, code))
}

// A refusal answers 0 for every other number.
fn font_written(r: Result<u32, Refused>) -> Written
    ensures { (out : List ℕ) → written_of r out ≡ record { refusal = result.refusal; count = result.length; out = out } }
{
    match r {
        Ok(length) => Written { refusal: 0, length },
        Err(refusal) => Written {
            refusal: u32::from(refusal),
            length: 0,
        },
    }
}

pub fn mf_write_font(store: &[u8], out: &mut [u8], font: u32) -> Written
    ensures { answered result.refusal (result.length ∷ []) store.now out.new ≡ outcome (write_font font out.old) store.now }
{
    font_written(write::write_font(store, out, font))
}

// How a reading ended: with a 13 at a place, or with the stream.
fn stream_ended(x: Stopped) -> StreamRead
    ensures { end_answer x.ending x.counts x.bad ≡ record { refusal = result.refusal; done = result.done; refused = result.refused; place = result.place; bad = result.bad } }
{
    let CommandCounts { done, refused } = x.counts;
    match x.ending {
        None => StreamRead {
            refusal: 0,
            done,
            refused,
            place: 0,
            bad: x.bad,
        },
        Some(at) => StreamRead {
            refusal: u32::from(Refused::StreamBroken),
            done,
            refused,
            place: at as u64,
            bad: x.bad,
        },
    }
}

// A refusal answers 0 for every other number, save 13.
fn stream_read(r: Result<Stopped, Refused>) -> StreamRead
    ensures { read_answer r ≡ record { refusal = result.refusal; done = result.done; refused = result.refused; place = result.place; bad = result.bad } }
{
    match r {
        Ok(x) => stream_ended(x),
        Err(refusal) => StreamRead {
            refusal: u32::from(refusal),
            done: 0,
            refused: 0,
            place: 0,
            bad: BadRun {
                row: 0,
                filled: 0,
                run: 0,
            },
        },
    }
}

pub fn mf_read_stream(store: &mut [u8], stream: &[u8]) -> StreamRead
    ensures { answered result.refusal (result.done ∷ result.refused ∷ result.place ∷ result.bad.row ∷ result.bad.filled ∷ result.bad.run ∷ []) store.new [] ≡ outcome (read_stream stream.now) store.old }
{
    stream_read(reading::read_stream(store, stream))
}

// W-201. All that is decided here is decided by the two calls.
pub fn mf_choose_sheet(store: &[u8], requests: &[Request], answers: &mut [SheetAnswer]) -> u32
    ensures { answered result [] store.now (answer_numbers answers.new) ≡ outcome (choose_sheet requests.now answers.old) store.now }
{
    let from = match sheet::begin_sheet(store, requests.len(), answers.len()) {
        Ok(from) => from,
        Err(refusal) => return u32::from(refusal),
    };
    for (i, request) in requests.iter().enumerate() {
        answers[i] = sheet::answer_request(store, from, *request);
    }
    0
}

// W-203
pub fn mf_turn_picture(picture: &[u8], out: &mut [u8], width: u32, height: u32, turn: u32) -> u32
    ensures { (s : List ℕ) → answered result [] s out.new ≡ outcome (turn_picture turn width height picture.now out.old) s }
{
    refusals::answer(turn::turn_picture(picture, out, width, height, turn))
}

// W-207
pub fn mf_check_profile(store: &[u8], font: u32) -> ProfileChecked
    ensures { answered result.refusal (result.rule ∷ result.code ∷ []) store.now [] ≡ outcome (check_profile font) store.now }
{
    check::check_profile(store, font)
}

pub fn mf_write_profiled(store: &[u8], out: &mut [u8], font: u32) -> Written
    ensures { answered result.refusal (result.length ∷ []) store.now out.new ≡ outcome (write_profiled font out.old) store.now }
{
    font_written(check::write_profiled(store, out, font))
}

// W-208. One lifetime for both stores, which the borrow checker asks for where both go to one call.
pub fn mf_choose_from_two<'a>(
    soft: &'a [u8],
    cartridge: &'a [u8],
    symbol_set: u32,
    spacing: u32,
    pitch: u32,
    height: u32,
    style: u32,
    weight: u32,
    typeface: u32,
    orientation: u32,
    mode: u32,
) -> RecordAnswer
    ensures soft_value { answered result.refusal (result.font ∷ result.which ∷ result.place ∷ []) soft.now [] ≡ outcome (choose_from_two true cartridge.now (request_of symbol_set spacing pitch height style weight typeface orientation mode)) soft.now }
    ensures cartridge_value { answered result.refusal (result.font ∷ result.which ∷ result.place ∷ []) cartridge.now [] ≡ outcome (choose_from_two false soft.now (request_of symbol_set spacing pitch height style weight typeface orientation mode)) cartridge.now }
{
    let r = request_by(
        symbol_set,
        spacing,
        pitch,
        height,
        style,
        weight,
        typeface,
        orientation,
        mode,
    );
    cartridge::answer_from_two(soft, cartridge, r)
}

// W-210
pub fn mf_add_figures(store: &[u8], figures: &mut [u8]) -> u32
    ensures { answered result [] store.now figures.new ≡ outcome (add_figures figures.old) store.now }
{
    adding::add_figures(store, figures)
}

// A refusal answers 0 for every other number.
fn stream_salvaged(r: Result<salvage::SalvageCounts, Refused>) -> Salvaged
    ensures { (s list : List ℕ) → with_both r s list ≡ record { refusal = result.refusal; stretches = result.stretches; done = result.done; refused = result.refused; store = s; out = list } }
{
    match r {
        Ok(x) => Salvaged {
            refusal: 0,
            stretches: x.stretches,
            done: x.counts.done,
            refused: x.counts.refused,
        },
        Err(refusal) => Salvaged {
            refusal: u32::from(refusal),
            stretches: 0,
            done: 0,
            refused: 0,
        },
    }
}

// W-212
pub fn mf_salvage_stream(store: &mut [u8], stream: &[u8], list: &mut [u8]) -> Salvaged
    ensures { answered result.refusal (result.stretches ∷ result.done ∷ result.refused ∷ []) store.new list.new ≡ outcome (salvage_stream stream.now list.old) store.old }
{
    stream_salvaged(salvage::salvage_stream(store, stream, list))
}
