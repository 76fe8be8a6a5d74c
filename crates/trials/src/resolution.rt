// W-206: a font of format 20 on both sides of its checks, in both modes, and the lengths that it and a format 0 font are written with.
use crate::{calls, samples};

fn blocks(rt: &impl Print, s: &mut [u8]) {
    let mut short = [0u8; 67];
    short[2] = 20;
    calls::font(rt, "  a block of 67 bytes", s, &short, 5);
    let mut small = samples::resolved(600, 600);
    small[1] = 67;
    calls::font(rt, "  descriptor size 67", s, &small, 5);
    let mixed = samples::resolved(300, 600);
    calls::font(rt, "  X 300 and Y 600", s, &mixed, 5);
    let fine = samples::resolved(600, 600);
    calls::font(rt, "  X 600 and Y 600", s, &fine, 5);
}

fn modes(rt: &impl Print, s: &[u8]) {
    calls::choose_in(rt, 300, "  chosen in mode 300", s, 0);
    calls::choose_in(rt, 600, "  chosen in mode 600", s, 0);
    calls::choose_in(rt, 400, "  chosen in mode 400", s, 0);
}

pub fn run(rt: &impl Print) {
    let mut store = [0u8; 256];
    let s: &mut [u8] = &mut store;
    calls::make_fresh(rt, "format 20: make fresh", s);
    blocks(rt, s);
    modes(rt, s);
    let h = samples::header(0);
    calls::font(rt, "  font 6 of format 0", s, &h, 6);
    modes(rt, s);
    let mut out = [0u8; 128];
    calls::write_font(rt, "  font 5 written", s, &mut out, 5);
    calls::write_font(rt, "  font 6 written", s, &mut out, 6);
}
