// The calls as C makes them: each is the call of the same name in `marlinfold`, with its contract. A slice is a pointer and a length in C.
#![tactic(auto)]

ghost use Rattle.std.specs.Prelude.{◌≡◌, true, false, ℕ, List, ◌∷◌, []};
ghost use Rattle.choice.specs.Request.{request_of};
ghost use Rattle.marlinfold.specs.Calls.{make_fresh, download_font, download_character, remove_font, remove_character, choose_font, tell_font, tell_character, draw_row, draw_picture, write_font, read_stream, choose_sheet, turn_picture, check_profile, write_profiled, choose_from_two, add_figures, salvage_stream, answer_numbers, answered, outcome};

use cartridge::RecordAnswer;
use choice::Request;
use marlinfold::{FontChosen, Salvaged, StreamRead, Written};
use profile::check::ProfileChecked;
use sheet::SheetAnswer;
use store::download::Downloaded;
use store::telling::Told;

#[unsafe(no_mangle)]
pub extern "C" fn mf_make_fresh(store: &mut [u8]) -> u32
    ensures { answered result [] store.new [] ≡ outcome make_fresh store.old }
{
    marlinfold::mf_make_fresh(store)
}

#[unsafe(no_mangle)]
pub extern "C" fn mf_download_font(store: &mut [u8], block: &[u8], font: u32) -> u32
    ensures { answered result [] store.new [] ≡ outcome (download_font font block.now) store.old }
{
    marlinfold::mf_download_font(store, block, font)
}

#[unsafe(no_mangle)]
pub extern "C" fn mf_download_character(
    store: &mut [u8],
    block: &[u8],
    font: u32,
    code: u32,
) -> Downloaded
    ensures { answered result.refusal (result.bad.row ∷ result.bad.filled ∷ result.bad.run ∷ []) store.new [] ≡ outcome (download_character font code block.now) store.old }
{
    marlinfold::mf_download_character(store, block, font, code)
}

#[unsafe(no_mangle)]
pub extern "C" fn mf_remove_font(store: &mut [u8], font: u32) -> u32
    ensures { answered result [] store.new [] ≡ outcome (remove_font font) store.old }
{
    marlinfold::mf_remove_font(store, font)
}

#[unsafe(no_mangle)]
pub extern "C" fn mf_remove_character(store: &mut [u8], font: u32, code: u32) -> u32
    ensures { answered result [] store.new [] ≡ outcome (remove_character font code) store.old }
{
    marlinfold::mf_remove_character(store, font, code)
}

#[unsafe(no_mangle)]
pub extern "C" fn mf_choose(
    store: &[u8],
    symbol_set: u32,
    spacing: u32,
    pitch: u32,
    height: u32,
    style: u32,
    weight: u32,
    typeface: u32,
    orientation: u32,
    mode: u32,
) -> FontChosen
    ensures { answered result.refusal (result.font ∷ []) store.now [] ≡ outcome (choose_font (request_of symbol_set spacing pitch height style weight typeface orientation mode)) store.now }
{
    marlinfold::mf_choose(
        store,
        symbol_set,
        spacing,
        pitch,
        height,
        style,
        weight,
        typeface,
        orientation,
        mode,
    )
}

#[unsafe(no_mangle)]
pub extern "C" fn mf_tell_font(store: &[u8], out: &mut [u8], font: u32) -> Told
    ensures { answered result.refusal (result.count ∷ []) store.now out.new ≡ outcome (tell_font font out.old) store.now }
{
    marlinfold::mf_tell_font(store, out, font)
}

#[unsafe(no_mangle)]
pub extern "C" fn mf_tell_character(store: &[u8], out: &mut [u8], font: u32, code: u32) -> Told
    ensures { answered result.refusal (result.count ∷ []) store.now out.new ≡ outcome (tell_character font code out.old) store.now }
{
    marlinfold::mf_tell_character(store, out, font, code)
}

#[unsafe(no_mangle)]
pub extern "C" fn mf_draw_row(store: &[u8], out: &mut [u8], font: u32, code: u32, row: u32) -> u32
    ensures { answered result [] store.now out.new ≡ outcome (draw_row font code row out.old) store.now }
{
    marlinfold::mf_draw_row(store, out, font, code, row)
}

#[unsafe(no_mangle)]
pub extern "C" fn mf_draw_picture(store: &[u8], out: &mut [u8], font: u32, code: u32) -> u32
    ensures { answered result [] store.now out.new ≡ outcome (draw_picture font code out.old) store.now }
{
    marlinfold::mf_draw_picture(store, out, font, code)
}

#[unsafe(no_mangle)]
pub extern "C" fn mf_write_font(store: &[u8], out: &mut [u8], font: u32) -> Written
    ensures { answered result.refusal (result.length ∷ []) store.now out.new ≡ outcome (write_font font out.old) store.now }
{
    marlinfold::mf_write_font(store, out, font)
}

#[unsafe(no_mangle)]
pub extern "C" fn mf_read_stream(store: &mut [u8], stream: &[u8]) -> StreamRead
    ensures { answered result.refusal (result.done ∷ result.refused ∷ result.place ∷ result.bad.row ∷ result.bad.filled ∷ result.bad.run ∷ []) store.new [] ≡ outcome (read_stream stream.now) store.old }
{
    marlinfold::mf_read_stream(store, stream)
}

#[unsafe(no_mangle)]
pub extern "C" fn mf_choose_sheet(
    store: &[u8],
    requests: &[Request],
    answers: &mut [SheetAnswer],
) -> u32
    ensures { answered result [] store.now (answer_numbers answers.new) ≡ outcome (choose_sheet requests.now answers.old) store.now }
{
    marlinfold::mf_choose_sheet(store, requests, answers)
}

#[unsafe(no_mangle)]
pub extern "C" fn mf_turn_picture(
    picture: &[u8],
    out: &mut [u8],
    width: u32,
    height: u32,
    turn: u32,
) -> u32
    ensures { (s : List ℕ) → answered result [] s out.new ≡ outcome (turn_picture turn width height picture.now out.old) s }
{
    marlinfold::mf_turn_picture(picture, out, width, height, turn)
}

#[unsafe(no_mangle)]
pub extern "C" fn mf_check_profile(store: &[u8], font: u32) -> ProfileChecked
    ensures { answered result.refusal (result.rule ∷ result.code ∷ []) store.now [] ≡ outcome (check_profile font) store.now }
{
    marlinfold::mf_check_profile(store, font)
}

#[unsafe(no_mangle)]
pub extern "C" fn mf_write_profiled(store: &[u8], out: &mut [u8], font: u32) -> Written
    ensures { answered result.refusal (result.length ∷ []) store.now out.new ≡ outcome (write_profiled font out.old) store.now }
{
    marlinfold::mf_write_profiled(store, out, font)
}

#[unsafe(no_mangle)]
pub extern "C" fn mf_choose_from_two<'a>(
    soft: &'a [u8],
    cartridge: &'a [u8],
    symbol_set: u32,
    spacing: u32,
    pitch: u32,
    height: u32,
    style: u32,
    weight: u32,
    typeface: u32,
    orientation: u32,
    mode: u32,
) -> RecordAnswer
    ensures soft_value { answered result.refusal (result.font ∷ result.which ∷ result.place ∷ []) soft.now [] ≡ outcome (choose_from_two true cartridge.now (request_of symbol_set spacing pitch height style weight typeface orientation mode)) soft.now }
    ensures cartridge_value { answered result.refusal (result.font ∷ result.which ∷ result.place ∷ []) cartridge.now [] ≡ outcome (choose_from_two false soft.now (request_of symbol_set spacing pitch height style weight typeface orientation mode)) cartridge.now }
{
    marlinfold::mf_choose_from_two(
        soft,
        cartridge,
        symbol_set,
        spacing,
        pitch,
        height,
        style,
        weight,
        typeface,
        orientation,
        mode,
    )
}

#[unsafe(no_mangle)]
pub extern "C" fn mf_add_figures(store: &[u8], figures: &mut [u8]) -> u32
    ensures { answered result [] store.now figures.new ≡ outcome (add_figures figures.old) store.now }
{
    marlinfold::mf_add_figures(store, figures)
}

#[unsafe(no_mangle)]
pub extern "C" fn mf_salvage_stream(store: &mut [u8], stream: &[u8], list: &mut [u8]) -> Salvaged
    ensures { answered result.refusal (result.stretches ∷ result.done ∷ result.refused ∷ []) store.new list.new ≡ outcome (salvage_stream stream.now list.old) store.old }
{
    marlinfold::mf_salvage_stream(store, stream, list)
}
