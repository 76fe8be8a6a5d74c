// The listing program of document 01: reads a stream from standard input into a fresh store, and lists the fonts that are kept. With an argument it only says how it is
// called; a failed write is told.
#![tactic(auto)]

mod column;
mod line;
mod lines;
mod listing;
mod summary;

use text::program;

// A byte more than is read, so that longer input shows.
const INPUT: usize = listing::MOST + 1;

fn main(rt: HostRuntime) {
    if program::has_argument(&rt) {
        let _ = eprintln!(rt; "usage: marlinfold-listing < STREAM");
        return;
    }
    let mut input = [0u8; INPUT];
    let mut text = [0u8; listing::TEXT];
    let n = program::read_full(&mut rt.stdin(), &mut input);
    let end = listing::list(&input[..n], &mut text);
    if let Err(error) = rt.write_all(&text[..end]) {
        program::fail(&rt, "marlinfold-listing", error);
    }
}
