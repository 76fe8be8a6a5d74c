// Reads one command of a stream. The bytes of a block are not looked at.
ghost use Rattle.std.specs.Prelude.{◌≡◌, cond, ◌^◌, ◌-◌, ◌≤◌, ◌<◌};
ghost use Rattle.stream.specs.Command.{stream_byte, number_of, number_command, is_block, block_of, command, moved_by, command_at};
ghost use Rattle.stream.specs.CommandEnds.{CommandEnds};
ghost use Rattle.stream.specs.declared.command.Command.TheVariants.{FontBlock, CharacterBlock};

use blocks::header::BLOCK_LIMIT;

// A command and the place after it, for a block the place where it begins too; no command; or the end of the stream.
// No Option or Result: each place of a stream has one of the six, and the definitions name them all.
#[derive(Clone, Copy)]
pub enum Command {
    SetFont { number: u32, next: usize },
    SetCode { number: u32, next: usize },
    FontBlock { from: usize, to: usize },
    CharacterBlock { from: usize, to: usize },
    Broken,
    End,
}

// The number of a command, and the place after its digits.
#[derive(Clone, Copy)]
pub struct NumberRead {
    pub value: u32,
    pub next: usize,
}

pub const ESC: u8 = 27;

// The byte at a place, 0 past the end.
fn byte_at(s: &[u8], at: usize) -> u8
    ensures { result ≡ stream_byte s.now at }
{
    s.get(at).copied().unwrap_or(0)
}

// The number after the first three bytes: five digits at most. It is part of its callers' code, and those of `read_command`: apart, each would hand its
// answer on through memory, which a stream of numbers alone shows.
#[inline(always)]
fn read_number(s: &[u8]) -> NumberRead
    ensures { (result ≡ number_of s.now) × (result.value < 100000) × (result.next ≤ 8) }
{
    let mut value = 0;
    for at in 3..8 {
        let b = byte_at(s, at);
        if !b.is_ascii_digit() {
            return NumberRead { value, next: at };
        }
        value = value * 10 + u32::from(b - b'0');
    }
    NumberRead { value, next: 8 }
}

// A font number or a code.
#[tactic(auto, unfolding(crate::specs::Command::number_command))]
#[inline(always)]
fn read_numbered(s: &[u8]) -> Command
    ensures { result ≡ number_command s.now (number_of s.now) }
{
    let d = read_number(s);
    if d.next < 4 {
        return Command::Broken;
    }
    let number = d.value;
    let next = d.next + 1;
    match byte_at(s, d.next) {
        b'D' => Command::SetFont { number, next },
        b'E' => Command::SetCode { number, next },
        _ => Command::Broken,
    }
}

// Whether a number announces a block, and the whole of it is there.
#[tactic(auto, unfolding(crate::specs::Command::is_block))]
fn is_block(s: &[u8], d: NumberRead) -> bool
    requires { (d.value < 100000) × (d.next ≤ 8) }
    ensures { result ≡ is_block s.now d }
{
    let size = d.value as usize;
    let to = d.next + 1 + size;
    (4 <= d.next) & ((byte_at(s, d.next) == b'W') & ((size <= BLOCK_LIMIT) & (to <= s.len())))
}

// A block's place: a font's, or a character's.
#[tactic(auto, unfolding(crate::specs::Command::block_of))]
#[inline(always)]
fn read_block(s: &[u8], font: bool) -> Command
    ensures { result ≡ block_of (cond font FontBlock CharacterBlock) s.now (number_of s.now) }
{
    let d = read_number(s);
    if !is_block(s, d) {
        return Command::Broken;
    }
    let from = d.next + 1;
    let to = from + d.value as usize;
    if font {
        Command::FontBlock { from, to }
    } else {
        Command::CharacterBlock { from, to }
    }
}

// The command that a slice begins with.
fn read_front(s: &[u8]) -> Command
    ensures { result ≡ command s.now }
{
    match s {
        [] => Command::End,
        [ESC, b'*', b'c', ..] => read_numbered(s),
        [ESC, b')', b's', ..] => read_block(s, true),
        [ESC, b'(', b's', ..] => read_block(s, false),
        _ => Command::Broken,
    }
}

// A command whose places count from a place further back.
#[tactic(auto, unfolding(crate::specs::Command::moved_by, crate::specs::CommandEnds::CommandEnds))]
fn move_by(at: usize, c: Command) -> Command
    requires { CommandEnds at (2 ^ 64 - 1) (moved_by at c) }
    ensures { result ≡ moved_by at c }
{
    match c {
        Command::SetFont { number, next } => Command::SetFont {
            number,
            next: at + next,
        },
        Command::SetCode { number, next } => Command::SetCode {
            number,
            next: at + next,
        },
        Command::FontBlock { from, to } => Command::FontBlock {
            from: at + from,
            to: at + to,
        },
        Command::CharacterBlock { from, to } => Command::CharacterBlock {
            from: at + from,
            to: at + to,
        },
        Command::Broken => Command::Broken,
        Command::End => Command::End,
    }
}

// The command at a place of a stream.
pub fn read_command(s: &[u8], at: usize) -> Command
    ensures { result ≡ command_at s.now at }
{
    if s.len() <= at {
        return Command::End;
    }
    move_by(at, read_front(&s[at..]))
}
