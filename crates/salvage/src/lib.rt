// W-212, reading past torn places: at a 13, on to the first later place where a whole ESC *c#D with a number within range stands.
#![tactic(auto)]

mod search;

ghost use Rattle.std.specs.Prelude.{◌≡◌, ◌+◌, ◌-◌, ◌≤◌, ◌<◌, length};
ghost use Rattle.change.specs.Put.{with_bytes};
ghost use Rattle.stream.specs.Reading.{first_target};
ghost use Rattle.stream.specs.Underway.{Underway};
ghost use Rattle.salvage.specs.Salvage.{restart_from, room_of, stretch_bytes, salvaging};
ghost use Rattle.salvage.specs.Onward.{going_on, with_both, started_at, stretch_of};

use form::locate::Cursor;
use refusals::Refused;
use store::download::BadRun;
use store::known;
use stream::reading;
use stream::reading::{CommandCounts, State, Target};

// What a reading past torn places came to: the stretches listed, and the commands done and refused.
#[derive(Clone, Copy)]
pub struct SalvageCounts {
    pub stretches: u64,
    pub counts: CommandCounts,
}

// The bytes of a stretch in the list: its first place and its length.
pub const STRETCH_BYTES: usize = 16;

// Lists the stretch from the place of a 13 to the next restart, and answers where that is.
fn skip(stream: &[u8], list: &mut [u8], at: usize, first: usize) -> usize
    requires { (first < length stream.now) × (at + stretch_bytes ≤ length list.old) }
    ensures value { result ≡ restart_from stream.now (first + 1) }
    ensures list_after { list.new ≡ with_bytes list.old at (stretch_of first (restart_from stream.now (first + 1) - first)) }
{
    let next = search::next_restart(stream, first + 1);
    change::put::<8>(list, at, first);
    change::put::<8>(list, at + 8, next - first);
    next
}

// A fresh reading from a place on, with the counts and the cursor of the one before.
fn start_at(at: usize, counts: CommandCounts, bad: BadRun, cursor: Cursor) -> State
    ensures { result ≡ started_at at counts bad cursor }
{
    State {
        at,
        target: Target::default(),
        counts,
        bad,
        cursor,
    }
}

// Reads on from a state past every torn place, as long as the list has room.
fn salvage_from(
    s: &mut [u8],
    stream: &[u8],
    list: &mut [u8],
    from: State,
) -> Result<SalvageCounts, Refused>
    requires { Underway (length stream.now) s.old from × (from.target ≡ first_target) }
    ensures { with_both result s.new list.new ≡ going_on stream.now s.old list.old 0 (room_of (length list.old)) from }
{
    let mut x = from;
    let mut n = 0;
    let room = list.len() / STRETCH_BYTES;
    // It ends with the stream, or at a tear past the list's room.
    loop {
        let last = reading::read_from(s, stream, x);
        let Some(first) = last.ending else {
            return Ok(SalvageCounts {
                stretches: n as u64,
                counts: last.counts,
            });
        };
        if n == room {
            return Err(Refused::OutputShort);
        }
        let next = skip(stream, list, n * STRETCH_BYTES, first);
        n += 1;
        x = start_at(next, last.counts, last.bad, last.cursor);
    }
}

// Reads a stream past its torn places: lists every stretch that was skipped, and answers how many, with the commands done and refused.
pub fn salvage_stream(
    s: &mut [u8],
    stream: &[u8],
    list: &mut [u8],
) -> Result<SalvageCounts, Refused>
    ensures { with_both result s.new list.new ≡ salvaging stream.now list.old s.old }
{
    let cursor = known::open_store(s).ok_or(Refused::NotStore)?;
    let first = start_at(0, CommandCounts::default(), BadRun::default(), cursor);
    salvage_from(s, stream, list, first)
}
