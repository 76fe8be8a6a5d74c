// Calls on characters: remove one, tell its kept bytes.
ghost use Rattle.std.specs.Prelude.{◌≡◌};
ghost use Rattle.refusals.specs.Refusals.{number_or_0};
ghost use Rattle.store.specs.Answer.{told_of};
ghost use Rattle.store.specs.Calls.{removing_character, telling_character};

use crate::telling;
use crate::telling::Told;
use change::CharacterId;
use form::layout::{CHARACTER_KEPT_AT, CHARACTER_RECORD, DESCRIPTOR_BYTES};
use form::seek;
use refusals::Refused;

// Removes a character.
pub fn remove_character(s: &mut [u8], font: u32, code: u32) -> Result<(), Refused>
    ensures value { number_or_0 result ≡ (removing_character font code s.old).answer }
    ensures s_after { s.new ≡ (removing_character font code s.old).bytes }
{
    let p = seek::seek_character(s, font, code)?;
    let from = p.from;
    let old = p.to - from;
    change::splice(s, from, old, p.used, 0);
    change::recount(s, p.lo, old, 0);
    let id = CharacterId {
        font: font as usize,
        code: code as usize,
    };
    change::unmark_character(s, id);
    Ok(())
}

// Tells a character's kept bytes, and the number of its data bytes.
pub fn tell_character(s: &[u8], out: &mut [u8], font: u32, code: u32) -> Told
    ensures { told_of result out.new ≡ telling_character font code s.now out.old }
{
    match seek::seek_character(s, font, code) {
        Err(r) => telling::untold(u32::from(r)),
        Ok(p) => {
            if out.len() < DESCRIPTOR_BYTES {
                return telling::untold(12);
            }
            let at = p.from;
            telling::copy_kept(s, at + CHARACTER_KEPT_AT, DESCRIPTOR_BYTES, out);
            Told {
                refusal: 0,
                count: (p.to - (at + CHARACTER_RECORD)) as u32,
            }
        }
    }
}
