// W-210, the program: reads a store from standard input and prints its figures. With an argument it only says how it is called; a failed write is told.
#![tactic(auto)]

mod line;
mod lines;
mod table;

use text::program;

// A byte more than a store has at most, so that longer input shows.
const INPUT: usize = form::layout::MOST_STORE + 1;

fn main(rt: HostRuntime) {
    if program::has_argument(&rt) {
        let _ = eprintln!(rt; "usage: marlinfold-figures < STORE");
        return;
    }
    let mut input = [0u8; INPUT];
    let mut text = [0u8; table::TEXT];
    let n = program::read_full(&mut rt.stdin(), &mut input);
    let end = table::write_table(&input[..n], &mut text);
    if let Err(error) = rt.write_all(&text[..end]) {
        program::fail(&rt, "marlinfold-figures", error);
    }
}
