// What answers are printed as. A write that fails is passed over: what is then missing shows it.
use std::fmt;
use store::download::BadRun;

// A run past the width, after its refusal: the picture row being read, the dots filled and the run; nothing if there was none.
#[derive(Clone, Copy)]
pub struct Past(pub BadRun);

impl fmt::Display for Past {
    fn fmt<W: fmt::Write>(&self, f: &mut fmt::Formatter<W>) -> fmt::Result {
        let BadRun { row, filled, run } = self.0;
        if run == 0 {
            return Ok(());
        }
        write!(f, ", row {row}, filled {filled}, run {run}")
    }
}

// A line: what was called, and what it answered.
pub fn answer(rt: &impl Print, what: &str, refusal: u32) {
    let _ = println!(rt; "{what}: {refusal}");
}

// The same with a second number.
pub fn two(rt: &impl Print, what: &str, refusal: u32, n: u32) {
    let _ = println!(rt; "{what}: {refusal}, {n}");
}
