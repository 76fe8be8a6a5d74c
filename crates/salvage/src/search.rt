// The search for the next place where a reading may start again. It never goes back, and passes over many places at once.
ghost use Rattle.std.specs.Prelude.{◌≡◌, ◌+◌, ◌-◌, ◌≤◌, ◌<◌, true, length};
ghost use Rattle.stream.specs.Command.{command_at};
ghost use Rattle.salvage.specs.Salvage.{restarts, restart_from};
ghost use Rattle.salvage.specs.Places.{may_start, none_start};

use form::layout::LAST_FONT_ASKED;
use stream::command;
use stream::command::{Command, ESC};

// Whether a command is a font number within range.
fn restarts(c: Command) -> bool
    ensures { result ≡ restarts c }
{
    matches!(c, Command::SetFont { number, .. } if number <= LAST_FONT_ASKED)
}

// Whether a reading may start again at a place. Most hold no ESC, and are told without reading a command.
fn restarts_at(stream: &[u8], i: usize) -> bool
    requires { i < length stream.now }
    ensures { result ≡ restarts (command_at stream.now i) }
{
    stream[i] == ESC && restarts(command::read_command(stream, i))
}

// The first place from `from` up to `to` where a reading may start again, or `to`.
fn first_in(stream: &[u8], from: usize, to: usize) -> usize
    requires { (from ≤ to) × (to ≤ length stream.now) }
    ensures { (result ≤ to) × (restart_from stream.now result ≡ restart_from stream.now from) × (result < to → restarts (command_at stream.now result) ≡ true) }
{
    for i in from..to {
        if restarts_at(stream, i) {
            return i;
        }
    }
    to
}

// Whether these bytes may be the first of a font number: ESC, *, c and a digit. All is compared, so that many places are tested at once.
fn may_start(a: u8, b: u8, c: u8, d: u8) -> bool
    ensures { result ≡ may_start a b c d }
{
    ((a == ESC) & (b == b'*')) & ((c == b'c') & ((b'0' <= d) & (d <= b'9')))
}

// What stands after the place of a font number's ESC, up to the first digit.
const AFTER_ESC: usize = 3;

// Whether a font number starts nowhere in a part, its last three bytes left out.
fn none_start(s: &[u8]) -> bool
    ensures { result ≡ none_start (length s.now - 3) s.now }
{
    let mut none = true;
    for i in AFTER_ESC..s.len() {
        none &= !may_start(s[i - 3], s[i - 2], s[i - 1], s[i]);
    }
    none
}

// How many places are tested at once.
const AT_ONCE: usize = 64;

// The first of so many places where a reading may start again, or the place after them.
fn among_many(stream: &[u8], at: usize) -> usize
    requires { at + 67 ≤ length stream.now }
    ensures { (result ≤ at + 64) × (restart_from stream.now result ≡ restart_from stream.now at) × (result < at + 64 → restarts (command_at stream.now result) ≡ true) }
{
    let end = at + AT_ONCE;
    if none_start(&stream[at..end + AFTER_ESC]) {
        return end;
    }
    first_in(stream, at, end)
}

// The first place from `at` on where a reading may start again, or the end.
pub fn next_restart(stream: &[u8], at: usize) -> usize
    requires { at ≤ length stream.now }
    ensures { result ≡ restart_from stream.now at }
{
    let groups = (stream.len() - at).saturating_sub(AFTER_ESC) / AT_ONCE;
    for k in 0..groups {
        let from = at + k * AT_ONCE;
        let first = among_many(stream, from);
        if first < from + AT_ONCE {
            return first;
        }
    }
    first_in(stream, at + groups * AT_ONCE, stream.len())
}
