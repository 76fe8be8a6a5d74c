// "Source document 001's compressed example, width 20: 25 bytes give 20 rows, 60 bytes."
use crate::{calls, samples};

// The example line by line, a repeat count and the runs, each as a continuation.
fn send(rt: &impl Print, s: &mut [u8]) {
    let d = samples::descriptor(2, 20, 20);
    calls::character(rt, "  compressed character", s, &d, 65);
    more(rt, s, b"\x04\x01\x02\x00\x14");
    more(rt, s, b"\x04\x01\x00\x00\x02\x06\x04\x06\x02");
    more(rt, s, b"\x04\x01\x00\x00\x01\x07\x04\x07\x01");
}

// The rest of it, and a byte more, for which the character must be complete.
fn send_rest(rt: &impl Print, s: &mut [u8]) {
    more(rt, s, b"\x04\x01\x0c\x08\x04\x08");
    more(rt, s, b"\x04\x01\x01\x05\x0a\x05");
    more(rt, s, b"\x04\x01\x00");
}

fn more(rt: &impl Print, s: &mut [u8], block: &[u8]) {
    calls::character(rt, "  continued", s, block, 65);
}

// The rows, of three bytes each.
fn print_rows(rt: &impl Print, picture: &[u8; 60]) {
    for row in picture.chunks_exact(3) {
        let _ = println!(rt; "  {:02x}{:02x}{:02x}", row[0], row[1], row[2]);
    }
}

fn draw(rt: &impl Print, s: &[u8]) {
    let mut row = [0u8; 3];
    calls::draw_row(rt, "  row 19", s, &mut row, 19);
    calls::draw_row(rt, "  row 20", s, &mut row, 20);
    let mut short = [0u8; 59];
    calls::draw_picture(rt, "  drawn into 59 bytes", s, &mut short);
    let mut picture = [0u8; 60];
    calls::draw_picture(rt, "  drawn into 60 bytes", s, &mut picture);
    print_rows(rt, &picture);
}

pub fn run(rt: &impl Print) {
    let mut store = [0u8; 256];
    let s: &mut [u8] = &mut store;
    let h = samples::header(0);
    calls::make_fresh(rt, "make fresh", s);
    calls::font(rt, "font 5", s, &h, 5);
    send(rt, s);
    send_rest(rt, s);
    let mut kept = [0u8; 16];
    calls::tell_character(rt, "  told", s, &mut kept, 5, 65);
    draw(rt, s);
}
