// A history that meets the refusals 1 to 13. The store has room for one font and one character with up to 6 data bytes.
use crate::{calls, samples};

fn numbers(rt: &impl Print, s: &mut [u8]) {
    let mut short = [0u8; 11];
    calls::make_fresh(rt, "make fresh, 11 bytes", &mut short);
    calls::make_fresh(rt, "make fresh, 126 bytes", s);
    let h = samples::header(0);
    calls::font(rt, "  font 32768", s, &h, 32768);
    calls::choose(rt, "  choose, no font", s, 0);
    calls::remove_font(rt, "  remove font 5, not there", s, 5);
}

fn headers(rt: &impl Print, s: &mut [u8]) {
    let short = [0u8; 63];
    calls::font(rt, "  font block of 63 bytes", s, &short, 5);
    let mut other = samples::header(0);
    other[2] = 1;
    calls::font(rt, "  font block of format 1", s, &other, 5);
    let heavy = samples::header(8);
    calls::font(rt, "  font block of weight 8", s, &heavy, 5);
    let h = samples::header(0);
    calls::font(rt, "  font 5", s, &h, 5);
}

fn characters(rt: &impl Print, s: &mut [u8]) {
    calls::remove_character(rt, "  remove character 65, not there", s, 5, 65);
    let c = samples::descriptor(2, 10, 3);
    calls::character(rt, "  character 65", s, &c, 65);
    calls::character(
        rt,
        "  runs of 4 and 7 in a row of 10",
        s,
        b"\x04\x01\x00\x04\x07",
        65,
    );
    let d = samples::descriptor(1, 1024, 257);
    calls::character(rt, "  width 1024 by height 257", s, &d, 65);
}

fn outputs(rt: &impl Print, s: &mut [u8]) {
    let mut out = [0u8; 67];
    calls::tell_font(rt, "  tell font 5 into 67 bytes", s, &mut out, 5);
    calls::read_stream(rt, "  read a stream of one space", s, b" ");
}

fn no_room(rt: &impl Print, s: &mut [u8]) {
    let d = samples::descriptor(1, 10, 1);
    calls::character(rt, "  character 66, no room", s, &d, 66);
    calls::remove_font(rt, "  remove font 5, gone with it", s, 5);
}

pub fn run(rt: &impl Print) {
    let mut store = [0u8; 126];
    let s: &mut [u8] = &mut store;
    numbers(rt, s);
    headers(rt, s);
    characters(rt, s);
    outputs(rt, s);
    no_room(rt, s);
}
