// What telling answers, and the bytes that it copies.
ghost use Rattle.std.specs.Prelude.{◌≡◌, ◌+◌, ◌≤◌, length, take, drop};
ghost use Rattle.store.specs.Calls.{onto};

// Document 01's refusal number, and the characters of a font or the data bytes of a character.
#[repr(C)]
#[derive(Clone, Copy)]
pub struct Told {
    pub refusal: u32,
    pub count: u32,
}

// A refusal answers 0 for every other number.
pub(crate) fn untold(refusal: u32) -> Told
    ensures { (result.refusal ≡ refusal) × (result.count ≡ 0) }
{
    Told {
        refusal: refusal,
        count: 0,
    }
}

// Copies n kept bytes, a font's or a character's, to an output that has room.
pub(crate) fn copy_kept(s: &[u8], from: usize, n: usize, out: &mut [u8])
    requires { (from + n ≤ length s.now) × (n ≤ length out.old) }
    ensures { out.new ≡ onto (take n (drop from s.now)) out.old }
{
    let to = from + n;
    change::copy(out, 0, &s[from..to]);
}
