// The calls, each with its answer printed on a line after what it is.
use crate::print;
use crate::print::Past;
use marlinfold::StreamRead;
use store::download::Downloaded;

pub fn make_fresh(rt: &impl Print, what: &str, s: &mut [u8]) {
    print::answer(rt, what, marlinfold::mf_make_fresh(s));
}

pub fn font(rt: &impl Print, what: &str, s: &mut [u8], block: &[u8], number: u32) {
    print::answer(rt, what, marlinfold::mf_download_font(s, block, number));
}

// Of font 5. The three numbers of a refusal 8 are printed.
pub fn character(rt: &impl Print, what: &str, s: &mut [u8], block: &[u8], code: u32) {
    let Downloaded { refusal, bad } = marlinfold::mf_download_character(s, block, 5, code);
    let _ = println!(rt; "{what}: {refusal}{}", Past(bad));
}

pub fn remove_font(rt: &impl Print, what: &str, s: &mut [u8], number: u32) {
    print::answer(rt, what, marlinfold::mf_remove_font(s, number));
}

pub fn remove_character(rt: &impl Print, what: &str, s: &mut [u8], number: u32, code: u32) {
    print::answer(rt, what, marlinfold::mf_remove_character(s, number, code));
}

// The number of characters is printed.
pub fn tell_font(rt: &impl Print, what: &str, s: &[u8], out: &mut [u8], number: u32) {
    let told = marlinfold::mf_tell_font(s, out, number);
    print::two(rt, what, told.refusal, told.count);
}

// The number of data bytes is printed.
pub fn tell_character(
    rt: &impl Print,
    what: &str,
    s: &[u8],
    out: &mut [u8],
    number: u32,
    code: u32,
) {
    let told = marlinfold::mf_tell_character(s, out, number, code);
    print::two(rt, what, told.refusal, told.count);
}

// For set 277, fixed, R 1000, H 1200, style 0, typeface 3, portrait: the font's number is printed.
pub fn choose_in(rt: &impl Print, mode: u32, what: &str, s: &[u8], weight: u32) {
    let chosen = marlinfold::mf_choose(s, 277, 0, 1000, 1200, 0, weight, 3, 0, mode);
    print::two(rt, what, chosen.refusal, chosen.font);
}

// In mode 300.
pub fn choose(rt: &impl Print, what: &str, s: &[u8], weight: u32) {
    choose_in(rt, 300, what, s, weight);
}

// The length is printed.
pub fn write_font(rt: &impl Print, what: &str, s: &[u8], out: &mut [u8], number: u32) {
    let written = marlinfold::mf_write_font(s, out, number);
    print::two(rt, what, written.refusal, written.length);
}

pub fn draw_row(rt: &impl Print, what: &str, s: &[u8], out: &mut [u8], row: u32) {
    print::answer(rt, what, marlinfold::mf_draw_row(s, out, 5, 65, row));
}

pub fn draw_picture(rt: &impl Print, what: &str, s: &[u8], out: &mut [u8]) {
    print::answer(rt, what, marlinfold::mf_draw_picture(s, out, 5, 65));
}

// The counts, the place and the three numbers of the first refusal 8 are printed.
pub fn read_stream(rt: &impl Print, what: &str, s: &mut [u8], stream: &[u8]) {
    let StreamRead {
        refusal,
        done,
        refused,
        place,
        bad,
    } = marlinfold::mf_read_stream(s, stream);
    let past = Past(bad);
    let _ = println!(rt; "{what}: {refusal}, done {done}, refused {refused}, place {place}{past}");
}
