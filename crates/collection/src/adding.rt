// The characters of one more store, added to the figures.
ghost use Rattle.std.specs.Prelude.{◌≡◌, ◌+◌, ◌≤◌, List, ◌∷◌, length};
ghost use Rattle.blocks.specs.Character.{descriptor_bytes};
ghost use Rattle.form.specs.Layout.{last_code};
ghost use Rattle.form.specs.Records.{RecordPlace, records_at};
ghost use Rattle.collection.specs.Figures.{figures_bytes, adding_figures};
ghost use Rattle.collection.specs.ByRecord.{Drawable, RoomFor, Roomy, figures_with, with_record, with_records};
ghost use Rattle.form.specs.Model.{Rec};
ghost use Rattle.form.specs.RecordsLeft.{record_of, RecordKept};

use crate::{check, figure};
use blackdots::picture;
use blocks::character;
use form::records;
use form::records::{Record, Records};

// Brings the seven numbers of a code up to date with a character of it, by its kept bytes and its data.
fn add_character(k: &[u8], d: &[u8], b: &mut [u8], code: u32)
    requires { (length k.now ≡ descriptor_bytes) × Drawable k.now d.now × (code ≤ last_code) × (length b.old ≡ figures_bytes) × RoomFor b.old code k.now d.now }
    ensures { b.new ≡ figures_with b.old code k.now d.now }
{
    let at = figure::code_place(code as usize);
    let width = character::width(k);
    let dots = picture::black_dots(character::class(k), width, character::height(k), d);
    let delta = character::delta_x(k);
    let f = figure::figure_at(b, at);
    figure::put_figure(
        b,
        at,
        figure::with_character(f, usize::from(width), dots as usize, delta as usize),
    );
}

// Adds a record.
fn add_record(r: Record<'_>, b: &mut [u8])
    requires { RecordKept r × ((rs : List Rec) × Roomy b.old (record_of r ∷ rs)) }
    ensures { b.new ≡ with_record b.old (record_of r.entry) }
{
    if let Record::Character { code, bytes, .. } = r {
        let (kept, data) = bytes.split_at(character::KEPT);
        add_character(kept, data, b, code);
    }
}

// The records from a place on.
fn add_records(s: &[u8], from: usize, b: &mut [u8])
    requires { RecordPlace s.now from × (length b.old ≡ figures_bytes) × Roomy b.old (records_at s.now from) }
    ensures { b.new ≡ with_records (records_at s.now from) b.old }
{
    for record in Records::starting_at(s, from) {
        add_record(record, b);
    }
}

// Adds a store to the figures. Checks 1, 2.
pub fn add_figures(store: &[u8], figures: &mut [u8]) -> u32
    ensures value { result ≡ (adding_figures store.now figures.old).answer }
    ensures figures_after { figures.new ≡ (adding_figures store.now figures.old).bytes }
{
    let Some(at) = records::begin_records(store) else {
        return 1;
    };
    if !check::figures_taken(figures) {
        return 2;
    }
    add_records(store, at, figures);
    let stores = figure::number_at(figures, 0);
    change::put::<8>(figures, 0, stores + 1);
    0
}
