// Reads a stream into a store: each command is carried out as it is met. The store is checked once, at the beginning, and each search in it
// begins where the last one ended.
ghost use Rattle.std.specs.Prelude.{◌≡◌, ◌+◌, ◌≤◌, ◌<◌, length};
ghost use Rattle.form.specs.Cursor.{Points};
ghost use Rattle.refusals.specs.Refusals.{number_or_0};
ghost use Rattle.stream.specs.Reading.{range_answer, with_number, with_code, count_answer, first_run, reading};
ghost use Rattle.stream.specs.Underway.{read_on, state_behind, Underway, read_after, ended_of, EndsWithin, Leads, read_answer, RefusedNone};

use crate::command;
use crate::command::Command;
use form::layout::{LAST_CODE_ASKED, LAST_FONT_ASKED};
use form::locate::Cursor;
use refusals::Refused;
use std::ops::ControlFlow;
use store::download::BadRun;
use store::known;
use store::known::Added;

// The font number and the code that the next block is for.
#[derive(Clone, Copy, Default)]
pub struct Target {
    pub font: u32,
    pub code: u32,
}

// The commands done and refused so far.
#[derive(Clone, Copy, Default)]
pub struct CommandCounts {
    pub done: u64,
    pub refused: u64,
}

// A reading under way: its place in the stream, and the cursor in the store.
#[derive(Clone, Copy)]
pub struct State {
    pub at: usize,
    pub target: Target,
    pub counts: CommandCounts,
    pub bad: BadRun,
    pub cursor: Cursor,
}

// A reading that has ended: with a 13 at a place, or with the stream. The run is that of the first refusal 8.
#[derive(Clone, Copy)]
pub struct Stopped {
    pub ending: Option<usize>,
    pub counts: CommandCounts,
    pub bad: BadRun,
    pub cursor: Cursor,
}

// One more command, by its answer.
#[tactic(auto, unfolding(crate::specs::Reading::count_answer))]
fn count(x: CommandCounts, answer: u32) -> CommandCounts
    requires { x.done + x.refused < 18446744073709551615 }
    ensures { result ≡ count_answer answer x }
{
    if answer == 0 {
        CommandCounts {
            done: x.done + 1,
            ..x
        }
    } else {
        CommandCounts {
            refused: x.refused + 1,
            ..x
        }
    }
}

// The run told so far or, if there is none, that of the new answer.
#[tactic(auto, unfolding(crate::specs::Reading::first_run))]
fn first_run(x: BadRun, new: BadRun) -> BadRun
    ensures { result ≡ first_run x new }
{
    if x.run == 0 { new } else { x }
}

// Whether a font number or a code is within range, by the last one allowed.
fn in_range(last: u32, n: u32) -> Result<(), Refused>
    ensures { number_or_0 result ≡ range_answer last n }
{
    if n <= last {
        Ok(())
    } else {
        Err(Refused::OutOfRange)
    }
}

// A number and a code each have a field and a limit of their own, so that one function for both would take more than it says.
#[tactic(auto, unfolding(crate::specs::Reading::with_number))]
fn with_number(t: Target, n: u32) -> Target
    ensures { result ≡ with_number n t }
{
    if n <= LAST_FONT_ASKED {
        Target { font: n, ..t }
    } else {
        t
    }
}

#[tactic(auto, unfolding(crate::specs::Reading::with_code))]
fn with_code(t: Target, n: u32) -> Target
    ensures { result ≡ with_code n t }
{
    if n <= LAST_CODE_ASKED {
        Target { code: n, ..t }
    } else {
        t
    }
}

// The state after a number or a code, which makes a new target.
fn after_number(x: State, target: Target, range: Result<(), Refused>, next: usize) -> State
    requires { x.counts.done + x.counts.refused < 18446744073709551615 }
    ensures { result ≡ state_behind x next target (number_or_0 range) x.bad x.cursor }
{
    State {
        at: next,
        target,
        counts: count(x.counts, refusals::answer(range)),
        ..x
    }
}

// The state after a block, by what the store answered.
fn after_block(x: State, added: Added, next: usize) -> State
    requires { x.counts.done + x.counts.refused < 18446744073709551615 }
    ensures { result ≡ state_behind x next x.target added.answer.refusal (first_run x.bad added.answer.bad) added.cursor }
{
    State {
        at: next,
        target: x.target,
        counts: count(x.counts, added.answer.refusal),
        bad: first_run(x.bad, added.answer.bad),
        cursor: added.cursor,
    }
}

// Carries out the command at the place of a state: goes on with the state after it, or breaks off with how the reading ended.
fn obey(s: &mut [u8], stream: &[u8], x: State) -> ControlFlow<Option<usize>, State>
    requires { Underway (length stream.now) s.old x }
    ensures result_after { read_after stream.now s.new x result ≡ read_on stream.now s.old x }
    ensures leads { Leads (length stream.now) s.new x result }
{
    ControlFlow::Continue(match command::read_command(stream, x.at) {
        Command::SetFont { number, next } => {
            let range = in_range(LAST_FONT_ASKED, number);
            after_number(x, with_number(x.target, number), range, next)
        }
        Command::SetCode { number, next } => {
            let range = in_range(LAST_CODE_ASKED, number);
            after_number(x, with_code(x.target, number), range, next)
        }
        Command::FontBlock { from, to } => {
            let added = known::add_font(s, x.cursor, &stream[from..to], x.target.font);
            after_block(x, added, to)
        }
        Command::CharacterBlock { from, to } => {
            let Target { font, code } = x.target;
            let added = known::add_character(s, x.cursor, &stream[from..to], font, code);
            after_block(x, added, to)
        }
        Command::Broken => return ControlFlow::Break(Some(x.at)),
        Command::End => return ControlFlow::Break(None),
    })
}

// Reads on from a state, up to the end of the stream or a 13.
pub fn read_from(s: &mut [u8], stream: &[u8], from: State) -> Stopped
    requires { Underway (length stream.now) s.old from }
    ensures s_after { ended_of result s.new ≡ read_on stream.now s.old from }
    ensures ends_within { EndsWithin (length stream.now) result.counts result.ending × Points s.new result.cursor }
{
    let mut x = from;
    // Only the stream tells how many commands there are.
    loop {
        match obey(s, stream, x) {
            ControlFlow::Continue(after) => x = after,
            ControlFlow::Break(ending) => {
                return Stopped {
                    ending,
                    counts: x.counts,
                    bad: x.bad,
                    cursor: x.cursor,
                };
            }
        }
    }
}

// Reads a stream: answers how it ended, with the commands done and refused, and the run of its first refusal 8.
pub fn read_stream(s: &mut [u8], stream: &[u8]) -> Result<Stopped, Refused>
    ensures value { read_answer result ≡ (reading stream.now s.old).answer }
    ensures s_after { s.new ≡ (reading stream.now s.old).bytes }
    ensures refused { RefusedNone s.old result }
{
    let cursor = known::open_store(s).ok_or(Refused::NotStore)?;
    let first = State {
        at: 0,
        target: Target::default(),
        counts: CommandCounts::default(),
        bad: BadRun::default(),
        cursor,
    };
    Ok(read_from(s, stream, first))
}
