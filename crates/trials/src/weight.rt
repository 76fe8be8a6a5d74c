// "Weight byte 249 is -7, 248 is 5."
use crate::{calls, samples};

fn download(rt: &impl Print, what: &str, s: &mut [u8], weight: u8, font: u32) {
    let h = samples::header(weight);
    calls::font(rt, what, s, &h, font);
}

// The weight of font 3 as it is told.
fn tell(rt: &impl Print, s: &[u8]) {
    let mut kept = [0u8; 68];
    calls::tell_font(rt, "  font 3 told", s, &mut kept, 3);
    let weight = kept[24].cast_signed();
    let _ = println!(rt; "  its weight: {weight}");
}

pub fn run(rt: &impl Print) {
    let mut store = [0u8; 288];
    let s: &mut [u8] = &mut store;
    calls::make_fresh(rt, "make fresh", s);
    download(rt, "  font 1, weight byte 250", s, 250, 1);
    download(rt, "  font 2, weight byte 7", s, 7, 2);
    download(rt, "  font 3, weight byte 249", s, 249, 3);
    tell(rt, s);
    calls::choose(rt, "  chosen for weight -7", s, 4294967289);
    download(rt, "  font 3, weight byte 248", s, 248, 3);
    tell(rt, s);
}
