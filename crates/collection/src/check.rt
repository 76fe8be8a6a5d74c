// Whether figures that are handed in may be what these calls made.
ghost use Rattle.std.specs.Prelude.{◌≡◌, ◌+◌, ◌≤◌, length};
ghost use Rattle.form.specs.Layout.{last_code};
ghost use Rattle.collection.specs.Figures.{figures_bytes, figure_at, most_in_stores, within_bound, codes_within, figures_taken};

use crate::figure;
use form::layout::LAST_CODE;

// Up to so many stores.
const MOST_STORES: usize = 64;

// Of one code: characters of a store of 65,536 bytes, dots and delta X of each.
const MOST_CHARACTERS: usize = 606;

const MOST_DOTS: usize = 262144;

const MOST_DELTA: usize = 32767;

// Whether a code's count, dots and sum are at most those of so many characters.
fn code_within(b: &[u8], code: usize, most: usize) -> bool
    requires { (length b.now ≡ figures_bytes) × (code ≤ last_code) × (most ≤ most_in_stores) }
    ensures { result ≡ within_bound most (figure_at b.now code) }
{
    let f = figure::figure_of(b, code);
    (f.count <= most) & (f.dots <= most * MOST_DOTS) & (f.sum <= most * MOST_DELTA)
}

fn codes_within(b: &[u8], most: usize) -> bool
    requires { (length b.now ≡ figures_bytes) × (most ≤ most_in_stores) }
    ensures { result ≡ codes_within b.now most (last_code + 1) }
{
    for code in 0..LAST_CODE + 1 {
        if !code_within(b, code, most) {
            return false;
        }
    }
    true
}

// Check 2.
pub(crate) fn figures_taken(b: &[u8]) -> bool
    ensures { result ≡ figures_taken b.now }
{
    if b.len() != figure::FIGURES_BYTES {
        return false;
    }
    let stores = figure::number_at(b, 0);
    if MOST_STORES <= stores {
        return false;
    }
    codes_within(b, stores * MOST_CHARACTERS)
}
