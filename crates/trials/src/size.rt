// "Width 1024 by height 256 is taken, 257 is 9."
use crate::{calls, samples};

pub fn run(rt: &impl Print) {
    let mut store = [0u8; 256];
    let s: &mut [u8] = &mut store;
    let h = samples::header(0);
    calls::make_fresh(rt, "make fresh", s);
    calls::font(rt, "font 5", s, &h, 5);
    let taken = samples::descriptor(1, 1024, 256);
    calls::character(rt, "  width 1024 by height 256", s, &taken, 65);
    let large = samples::descriptor(1, 1024, 257);
    calls::character(rt, "  width 1024 by height 257", s, &large, 66);
}
