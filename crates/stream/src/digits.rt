// Writes numbers in decimal.
ghost use Rattle.std.specs.Prelude.{◌≡◌, ◌+◌, ◌≤◌, length};
ghost use Rattle.stream.specs.Digits.{decimal_of};
ghost use Rattle.change.specs.Put.{with_bytes};

// How many digits a number has: 0 has one too.
pub fn digit_count(n: usize) -> usize
    ensures { result ≡ length (decimal_of n) }
{
    n.max(1).ilog10() as usize + 1
}

// Writes a number at a place, the last digit first, and returns the place after it.
pub fn write_digits(out: &mut [u8], at: usize, n: usize) -> usize
    requires { at + length (decimal_of n) ≤ length out.old }
    ensures { (result ≡ at + length (decimal_of n)) × (out.new ≡ with_bytes out.old at (decimal_of n)) }
{
    let end = at + digit_count(n);
    let mut rest = n;
    for i in (at..end).rev() {
        out[i] = b'0' + (rest % 10) as u8;
        rest /= 10;
    }
    end
}
