// Writes a kept font as a stream: its length first, so that an output that is too short is left as it was.
ghost use Rattle.std.specs.Prelude.{◌≡◌, List, [], ◌∷◌, ℕ, ◌+◌, ◌*◌, ◌≤◌, ◌<◌, length};
ghost use Rattle.blocks.specs.Header.{header_bytes};
ghost use Rattle.form.specs.Layout.{most_store, last_font, last_code};
ghost use Rattle.form.specs.Model.{Rec, font, size_of};
ghost use Rattle.form.specs.Records.{Between};
ghost use Rattle.form.specs.RecordsLeft.{record_of, RecordKept};
ghost use Rattle.stream.specs.Digits.{decimal_of};
ghost use Rattle.change.specs.Put.{with_bytes};
ghost use Rattle.stream.specs.Writing.{character_block_command};
ghost use Rattle.blocks.specs.Character.{character_format};
ghost use Rattle.stream.specs.Written.{continues, written_record, written_run, written_of, writing_bytes, writing_font};
ghost use Rattle.stream.specs.Run.{blocks, written_character};

use crate::digits::digit_count;
use crate::writing::{CommandHead, write_block, write_bytes, write_head};
use blocks::character::CONTINUATION;
use blocks::header::BLOCK_LIMIT;
use blocks::{character, header};
use form::records::{Record, Records};
use form::seek;
use refusals::Refused;

// Byte 1 of a continuation that is written.
const CONTINUES: u8 = 1;

// What a command has beside the digits of its number: ESC, two bytes and a letter.
const COMMAND_BYTES: usize = 4;

// The length of a command with this number.
fn command_length(n: usize) -> usize
    requires { n < 100000 }
    ensures { (result ≡ 4 + length (decimal_of n)) × (result ≤ 9) }
{
    COMMAND_BYTES + digit_count(n)
}

// The length of the blocks of a character with n bytes kept, its data among them.
fn blocks_length(n: usize) -> usize
    requires { n ≤ most_store }
    ensures { ((b : List ℕ) → length b ≡ n → result ≡ length (blocks b)) × (result ≤ n + 20) }
{
    if n <= BLOCK_LIMIT {
        return command_length(n) + n;
    }
    let rest = n - BLOCK_LIMIT + CONTINUATION;
    command_length(BLOCK_LIMIT) + BLOCK_LIMIT + (command_length(rest) + rest)
}

// The length of a font's own commands, whose kept bytes are h.
fn font_length(number: usize, h: &[u8]) -> usize
    requires { (number ≤ last_font) × (length h.now ≡ header_bytes) }
    ensures { (result ≡ length (written_record (font number h.now))) × (result ≤ header_bytes + 18) }
{
    let n = header::own_bytes(h);
    command_length(number) + (command_length(n) + n)
}

// The length of a character's commands, with n bytes kept, its data among them.
fn character_length(code: usize, n: usize) -> usize
    requires { (code ≤ last_code) × (n ≤ most_store) }
    ensures { ((b : List ℕ) → length b ≡ n → result ≡ length (written_character code b)) × (result ≤ n + 29) }
{
    command_length(code) + blocks_length(n)
}

// The length of what a record is written as.
fn record_length(r: Record<'_>) -> usize
    requires { RecordKept r × (size_of (record_of r) ≤ most_store) }
    ensures { (result ≡ length (written_record (record_of r.entry))) × (result ≤ 2 * size_of (record_of r.entry)) }
{
    match r {
        Record::Font { number, kept } => font_length(number as usize, kept),
        Record::Character { code, bytes, .. } => character_length(code as usize, bytes.len()),
    }
}

// The length of what the records from one place up to another are written as.
fn written_length(s: &[u8], lo: usize, hi: usize) -> usize
    requires { (rs : List Rec) × Between s.now lo hi rs }
    ensures { ((rs : List Rec) → Between s.now lo hi rs → result ≡ length (written_run rs)) × (result ≤ 2 * most_store) }
{
    let mut n = 0;
    for record in Records::between(s, lo, hi) {
        n += record_length(record);
    }
    n
}

// A continuation, with this data.
#[tactic(auto, using(crate::proofs::Writes::continuation_length))]
fn write_continuation(out: &mut [u8], to: usize, b: &[u8]) -> usize
    requires { to + length (character_block_command (character_format ∷ continues ∷ b.now)) ≤ length out.old }
    ensures { (result ≡ to + length (character_block_command (character_format ∷ continues ∷ b.now))) × (out.new ≡ with_bytes out.old to (character_block_command (character_format ∷ continues ∷ b.now))) }
{
    let next = write_head(out, to, CommandHead::CharacterBlock, b.len() + CONTINUATION);
    out[next] = character::FORMAT;
    out[next + 1] = CONTINUES;
    write_bytes(out, next + CONTINUATION, b)
}

// The kept bytes of a character with its data: a first block, and a continuation for what it does not hold.
fn write_blocks(out: &mut [u8], to: usize, b: &[u8]) -> usize
    requires { to + length (blocks b.now) ≤ length out.old }
    ensures { (result ≡ to + length (blocks b.now)) × (out.new ≡ with_bytes out.old to (blocks b.now)) }
{
    if b.len() <= BLOCK_LIMIT {
        return write_block(out, to, CommandHead::CharacterBlock, b);
    }
    let next = write_block(out, to, CommandHead::CharacterBlock, &b[..BLOCK_LIMIT]);
    write_continuation(out, next, &b[BLOCK_LIMIT..])
}

// A font's own record, whose kept bytes are h.
fn write_font_record(out: &mut [u8], to: usize, number: usize, h: &[u8]) -> usize
    requires { (length h.now ≡ header_bytes) × (to + length (written_record (font number h.now)) ≤ length out.old) }
    ensures { (result ≡ to + length (written_record (font number h.now))) × (out.new ≡ with_bytes out.old to (written_record (font number h.now))) }
{
    let n = header::own_bytes(h);
    let next = write_head(out, to, CommandHead::SetFont, number);
    write_block(out, next, CommandHead::FontBlock, &h[..n])
}

// A character's record, whose kept bytes with its data are b.
fn write_character_record(out: &mut [u8], to: usize, code: usize, b: &[u8]) -> usize
    requires { to + length (written_character code b.now) ≤ length out.old }
    ensures { (result ≡ to + length (written_character code b.now)) × (out.new ≡ with_bytes out.old to (written_character code b.now)) }
{
    let next = write_head(out, to, CommandHead::SetCode, code);
    write_blocks(out, next, b)
}

// A record.
fn write_record(r: Record<'_>, out: &mut [u8], to: usize) -> usize
    requires { RecordKept r × (to + length (written_record (record_of r)) ≤ length out.old) }
    ensures { (result ≡ to + length (written_record (record_of r.entry))) × (out.new ≡ with_bytes out.old to (written_record (record_of r.entry))) }
{
    match r {
        Record::Font { number, kept } => write_font_record(out, to, number as usize, kept),
        Record::Character { code, bytes, .. } => {
            write_character_record(out, to, code as usize, bytes)
        }
    }
}

// The records from one place up to another.
fn write_records(s: &[u8], lo: usize, hi: usize, out: &mut [u8])
    requires { ((rs : List Rec) × Between s.now lo hi rs) × ((rs : List Rec) → Between s.now lo hi rs → length (written_run rs) ≤ length out.old) }
    ensures { (rs : List Rec) → Between s.now lo hi rs → out.new ≡ with_bytes out.old 0 (written_run rs) }
{
    let mut to = 0;
    for record in Records::between(s, lo, hi) {
        to = write_record(record, out, to);
    }
}

// Writes the records from one place up to another, if the output has room for them, and answers their length. Checks 12.
pub fn write_found(s: &[u8], out: &mut [u8], lo: usize, hi: usize) -> Result<u32, Refused>
    requires { (rs : List Rec) × Between s.now lo hi rs }
    ensures { (rs : List Rec) → Between s.now lo hi rs → written_of result out.new ≡ writing_bytes (written_run rs) out.old }
{
    let n = written_length(s, lo, hi);
    if out.len() < n {
        return Err(Refused::OutputShort);
    }
    write_records(s, lo, hi, out);
    Ok(n as u32)
}

// Writes a font with its characters, and answers their length. Checks 1, 2, 6, 12.
pub fn write_font(s: &[u8], out: &mut [u8], font: u32) -> Result<u32, Refused>
    ensures { written_of result out.new ≡ writing_font font s.now out.old }
{
    let p = seek::seek_font(s, font)?;
    write_found(s, out, p.lo, p.hi)
}
