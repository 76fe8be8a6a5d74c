// Writes the commands of a stream. Each function returns the place after what it wrote.
ghost use Rattle.std.specs.Prelude.{◌≡◌, ◌+◌, ◌≤◌, length};
ghost use Rattle.change.specs.Put.{with_bytes};
ghost use Rattle.stream.specs.Writing.{spelling, command_head, command_of};

use crate::command::ESC;
use crate::digits::write_digits;

// What a command is for: each has its own letters around the number.
#[derive(Clone, Copy)]
pub enum CommandHead {
    SetFont,
    SetCode,
    FontBlock,
    CharacterBlock,
}

// ESC, two bytes, a number and a letter.
#[tactic(auto, using(crate::proofs::Spellings::length_spelling))]
fn write_spelling(out: &mut [u8], at: usize, second: u8, third: u8, n: usize, letter: u8) -> usize
    requires { at + length (spelling second third n letter) ≤ length out.old }
    ensures { (result ≡ at + length (spelling second third n letter)) × (out.new ≡ with_bytes out.old at (spelling second third n letter)) }
{
    out[at] = ESC;
    out[at + 1] = second;
    out[at + 2] = third;
    let end = write_digits(out, at + 3, n);
    out[end] = letter;
    end + 1
}

// ESC *c#D sets the font number and ESC *c#E the code; ESC )s#W stands before a font block of n bytes, and ESC (s#W before a character block.
#[tactic(auto, unfolding(crate::specs::Writing::set_font, crate::specs::Writing::set_code, crate::specs::Writing::font_block_head, crate::specs::Writing::character_block_head))]
pub fn write_head(out: &mut [u8], at: usize, head: CommandHead, n: usize) -> usize
    requires { at + length (command_head head n) ≤ length out.old }
    ensures { (result ≡ at + length (command_head head n)) × (out.new ≡ with_bytes out.old at (command_head head n)) }
{
    match head {
        CommandHead::SetFont => write_spelling(out, at, b'*', b'c', n, b'D'),
        CommandHead::SetCode => write_spelling(out, at, b'*', b'c', n, b'E'),
        CommandHead::FontBlock => write_spelling(out, at, b')', b's', n, b'W'),
        CommandHead::CharacterBlock => write_spelling(out, at, b'(', b's', n, b'W'),
    }
}

// Copies bytes to a place.
pub fn write_bytes(out: &mut [u8], at: usize, b: &[u8]) -> usize
    requires { at + length b.now ≤ length out.old }
    ensures { (result ≡ at + length b.now) × (out.new ≡ with_bytes out.old at b.now) }
{
    change::copy(out, at, b);
    at + b.len()
}

// The head of a command with the number of these bytes, and the bytes.
pub fn write_block(out: &mut [u8], at: usize, head: CommandHead, b: &[u8]) -> usize
    requires { at + length (command_of head b.now) ≤ length out.old }
    ensures { (result ≡ at + length (command_of head b.now)) × (out.new ≡ with_bytes out.old at (command_of head b.now)) }
{
    let from = write_head(out, at, head, b.len());
    write_bytes(out, from, b)
}
