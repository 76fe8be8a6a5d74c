// The stream of the listing, from standard input.
use crate::calls;
use text::program;

// All but the last byte.
fn read_cut(rt: &impl Print, s: &mut [u8], stream: &[u8]) {
    if let Some((_, front)) = stream.split_last() {
        calls::read_stream(rt, "  without its last byte", s, front);
    }
}

fn tell(rt: &impl Print, s: &[u8]) {
    let mut kept = [0u8; 68];
    calls::tell_font(rt, "  font 2 told", s, &mut kept, 2);
    calls::tell_font(rt, "  font 5 told", s, &mut kept, 5);
}

pub fn run(rt: &(impl Input + Print)) {
    let mut input = [0u8; 256];
    let mut store = [0u8; 512];
    let n = program::read_full(&mut rt.reader(), &mut input);
    calls::make_fresh(rt, "make fresh", &mut store);
    calls::read_stream(rt, "  the stream of the listing", &mut store, &input[..n]);
    tell(rt, &store);
    read_cut(rt, &mut store, &input[..n]);
}
