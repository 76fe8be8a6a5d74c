// Downloads to a buffer that is known to be a store and stays one, as in a stream: it is checked once, and each search begins where the last
// one ended.
ghost use Rattle.std.specs.Prelude.{◌≡◌, ◌+◌, ◌≤◌};
ghost use Rattle.form.specs.Layout.{last_code, last_font, most_store};
ghost use Rattle.store.specs.Answer.{downloaded_of};
ghost use Rattle.store.specs.Calls.{downloading_font};
ghost use Rattle.store.specs.Download.{downloading_character};
ghost use Rattle.form.specs.Cursor.{Points};
ghost use Rattle.store.specs.Known.{Opening, font_end, Came};

use crate::download::Downloaded;
use crate::{download, fonts};
use blocks::header;
use form::layout::{FONT_RECORD, KEYS_EACH};
use form::locate::Cursor;
use form::walk::Places;
use form::{locate, number, walk};

// What a download answers, and the cursor behind it.
#[derive(Clone, Copy)]
pub struct Added {
    pub answer: Downloaded,
    pub cursor: Cursor,
}

// Checks a buffer: a cursor at its front, if it is a store.
pub fn open_store(s: &[u8]) -> Option<Cursor>
    ensures { Opening s.now result }
{
    let p = walk::inspect(s, 0, 0)?;
    Some(Cursor {
        used: p.used,
        font: 0,
        lo: p.lo,
        key: 0,
        at: p.lo,
    })
}

// Where the records end behind a font block.
fn font_end(p: Places, answer: u32) -> usize
    requires { (p.lo ≤ p.hi) × (p.hi ≤ p.used) × (p.used ≤ most_store) }
    ensures { result ≡ font_end p answer }
{
    if answer == 0 {
        return p.used - (p.hi - p.lo) + FONT_RECORD;
    }
    p.used
}

// Downloads a font block.
pub fn add_font(s: &mut [u8], c: Cursor, block: &[u8], font: u32) -> Added
    requires { Points s.old c × (font ≤ last_font) }
    ensures answer_value { (result.answer ≡ downloaded_of (downloading_font font block.now s.old)) × Points s.new result.cursor }
    ensures s_after { s.new ≡ (downloading_font font block.now s.old).bytes }
{
    match header::read_header(block) {
        Err(r) => Added {
            answer: download::without_run(u32::from(r)),
            cursor: c,
        },
        Ok(()) => {
            let n = font as usize;
            let p = locate::locate(s, c, n, 0);
            let answer = refusals::answer(fonts::put_font(s, p, font, block));
            let behind = Cursor {
                used: font_end(p, answer),
                font: n,
                lo: p.lo,
                key: n * KEYS_EACH + 0,
                at: p.lo,
            };
            Added {
                answer: download::without_run(answer),
                cursor: behind,
            }
        }
    }
}

// The cursor behind a character block: at the character, or where its font stood.
fn past_character(s: &[u8], p: Places, font: usize, code: usize, answer: u32) -> Cursor
    requires { Came font code answer s.now p }
    ensures { Points s.now result }
{
    if answer == 10 {
        return Cursor {
            used: p.used - (p.hi - p.lo),
            font: font,
            lo: p.lo,
            key: font * KEYS_EACH + 0,
            at: p.lo,
        };
    }
    let from = p.from;
    let key = font * KEYS_EACH + (code + 1);
    if answer == 0 {
        return Cursor {
            used: p.used - (p.to - from) + number::le32(s, from),
            font: font,
            lo: p.lo,
            key: key,
            at: from,
        };
    }
    Cursor {
        used: p.used,
        font: font,
        lo: p.lo,
        key: key,
        at: from,
    }
}

// Downloads a character block.
pub fn add_character(s: &mut [u8], c: Cursor, block: &[u8], font: u32, code: u32) -> Added
    requires { Points s.old c × (font ≤ last_font) × (code ≤ last_code) }
    ensures answer_value { (result.answer ≡ downloaded_of (downloading_character font code block.now s.old)) × Points s.new result.cursor }
    ensures s_after { s.new ≡ (downloading_character font code block.now s.old).bytes }
{
    let n = font as usize;
    let m = code as usize;
    let p = locate::locate(s, c, n, m + 1);
    let answer = download::put_block(s, p, font, code, block);
    let behind = past_character(s, p, n, m, answer.refusal);
    Added {
        answer: answer,
        cursor: behind,
    }
}
