// W-206: "the 90-byte case becomes 94 and 93": a store of 94 bytes takes one font, 93 none (10).
use crate::{calls, samples};

fn two_fonts(rt: &impl Print, s: &mut [u8]) {
    let h = samples::header(0);
    calls::make_fresh(rt, "  make fresh", s);
    calls::font(rt, "  font 5", s, &h, 5);
    calls::font(rt, "  font 6", s, &h, 6);
}

pub fn run(rt: &impl Print) {
    let mut enough = [0u8; 94];
    let _ = println!(rt; "a store of 94 bytes");
    two_fonts(rt, &mut enough);
    let mut short = [0u8; 93];
    let _ = println!(rt; "a store of 93 bytes");
    two_fonts(rt, &mut short);
}
