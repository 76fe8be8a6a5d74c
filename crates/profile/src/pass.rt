// One pass over the records of a font, which stand by rising code.
ghost use Rattle.std.specs.Prelude.{◌≡◌, List, [], ◌≤◌, ◌<◌, length};
ghost use Rattle.blocks.specs.Header.{header_bytes};
ghost use Rattle.blocks.specs.Character.{descriptor_bytes};
ghost use Rattle.form.specs.Layout.{last_code};
ghost use Rattle.form.specs.Model.{Rec, held_of};
ghost use Rattle.form.specs.Records.{Between};
ghost use Rattle.form.specs.RecordsLeft.{record_of, records_left, RecordKept, RunsOn};
ghost use Rattle.profile.specs.Profile.{is_whole};
ghost use Rattle.profile.specs.Pass.{as_told, numbers_or_8, found_numbers, number_or_8, next_wanted, first_broken_of, behind_character, behind_record, passed_over, nothing_found, found_broken, broken_with, broken_among};

use crate::rules;
use crate::rules::ProfileRule;
use blocks::{character, header};
use form::records::{Record, Records};

// The codes that a font must have.
const FIRST_REQUIRED: u32 = 32;

const LAST_REQUIRED: u32 = 127;

// A broken rule, and the lowest code that breaks it.
#[derive(Clone, Copy, Debug, PartialEq, Eq)]
pub struct BrokenRule {
    pub rule: ProfileRule,
    pub code: u32,
}

// What a pass has found: the lowest required code that has no complete character yet (or one above them, if all have), and of the rules on a character's kept bytes
// the first that is broken.
#[derive(Clone, Copy)]
pub struct Findings {
    pub wanted: u32,
    pub broken: Option<BrokenRule>,
}

// Data is looked at where the code is the one that is wanted, and required.
fn next_wanted(wanted: u32, code: u32, k: &[u8], d: &[u8]) -> u32
    requires { (code ≤ last_code) × (descriptor_bytes ≤ length k.now) }
    ensures { result ≡ next_wanted wanted code (is_whole (held_of k.now d.now)) }
{
    if (code != wanted) | (LAST_REQUIRED < code) {
        return wanted;
    }
    if rules::is_whole(k, d) {
        code + 1
    } else {
        wanted
    }
}

// The first broken rule after a character that breaks this one: codes rise, so that of two characters that break a rule the earlier has the lower code.
fn first_broken_of(
    so_far: Option<BrokenRule>,
    rule: Option<ProfileRule>,
    code: u32,
) -> Option<BrokenRule>
    ensures { numbers_or_8 result ≡ first_broken_of (numbers_or_8 so_far) (number_or_8 rule) code }
{
    match (so_far, rule) {
        (Some(b), Some(r)) => {
            if r < b.rule {
                Some(BrokenRule { rule: r, code })
            } else {
                so_far
            }
        }
        (None, Some(r)) => Some(BrokenRule { rule: r, code }),
        (_, None) => so_far,
    }
}

// After a character with the kept bytes k and the data d.
fn behind_character(h: &[u8], p: Findings, code: u32, k: &[u8], d: &[u8]) -> Findings
    requires { (header_bytes ≤ length h.now) × (code ≤ last_code) × (descriptor_bytes ≤ length k.now) }
    ensures { found_numbers result ≡ behind_character h.now (found_numbers p) code k.now d.now }
{
    Findings {
        wanted: next_wanted(p.wanted, code, k, d),
        broken: first_broken_of(p.broken, rules::broken_by(h, k), code),
    }
}

// After a record.
fn pass_record(h: &[u8], p: Findings, r: Record<'_>) -> Findings
    requires { RecordKept r × (header_bytes ≤ length h.now) }
    ensures { found_numbers result ≡ behind_record h.now (found_numbers p) (record_of r.entry) }
{
    match r {
        Record::Font { .. } => p,
        Record::Character { code, bytes, .. } => {
            let (kept, data) = bytes.split_at(character::KEPT);
            behind_character(h, p, code, kept, data)
        }
    }
}

// The records of a font with the header h.
fn pass_records(h: &[u8], records: Records<'_>) -> Findings
    requires { RunsOn records × (header_bytes ≤ length h.now) }
    ensures { found_numbers result ≡ passed_over (records_left records.entry) h.now nothing_found }
{
    let mut p = Findings {
        wanted: FIRST_REQUIRED,
        broken: None,
    };
    for record in records {
        p = pass_record(h, p, record);
    }
    p
}

// The first broken rule of those that look at characters.
fn found_broken(p: Findings) -> Option<BrokenRule>
    ensures { as_told result ≡ found_broken (found_numbers p) }
{
    if p.wanted <= LAST_REQUIRED {
        return Some(BrokenRule {
            rule: ProfileRule::CodesComplete,
            code: p.wanted,
        });
    }
    p.broken
}

// A font with the header h, whose characters are these records.
fn broken_with(h: &[u8], records: Records<'_>) -> Option<BrokenRule>
    requires { RunsOn records × (header_bytes ≤ length h.now) }
    ensures { as_told result ≡ broken_with h.now (records_left records.entry) }
{
    if header::font_type(h) != 0 {
        return Some(BrokenRule {
            rule: ProfileRule::TypeZero,
            code: 0,
        });
    }
    if header::spacing(h) != 0 {
        return Some(BrokenRule {
            rule: ProfileRule::FixedSpacing,
            code: 0,
        });
    }
    found_broken(pass_records(h, records))
}

// A font whose records stand from one place up to another.
pub(crate) fn broken_among(s: &[u8], lo: usize, hi: usize) -> Option<BrokenRule>
    requires { ((rs : List Rec) × Between s.now lo hi rs) × (lo < hi) }
    ensures { (rs : List Rec) → Between s.now lo hi rs → as_told result ≡ broken_among rs }
{
    let mut records = Records::between(s, lo, hi);
    match records.next()? {
        Record::Font { kept, .. } => broken_with(kept, records),
        Record::Character { .. } => None,
    }
}
