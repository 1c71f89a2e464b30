// Texts and whole numbers as text, stored into a run of bytes.
ghost use Rattle.std.specs.Prelude.{◌≡◌, ◌+◌, ◌≤◌, ◌<◌, length};
ghost use Rattle.std.proofs.lemmas.List.Edits.{sets};
ghost use Rattle.decimals.specs.Text.{digit as digit_of, digits, width as width_of, decimal};
ghost use Rattle.decimals.specs.Stored.{Stored};

// A text, from the place at on; the place behind it.
pub fn store(out: &mut [u8], at: usize, text: &[u8]) -> usize
    requires { at + length text.now ≤ length out.old }
    ensures stored { Stored out.old at text.now out.new result }
    ensures upper_bound { result ≤ at + length text.now }
{
    let end = at + text.len();
    out[at..end].copy_from_slice(text);
    end
}

fn digit(d: u64) -> u8
    requires { d < 16 }
    ensures { result ≡ digit_of d }
{
    if d < 10 {
        return b'0' + d as u8;
    }
    b'a' - 10 + d as u8
}

// The last k digits of n, from the place at on. The least significant is stored first.
pub fn put_digits(out: &mut [u8], at: usize, base: u64, k: usize, n: u64)
    requires base_nonzero { 0 < base }
    requires base_bound { base ≤ 16 }
    requires k_in_bounds { at + k ≤ length out.old }
    ensures { out.new ≡ sets out.old at (digits base k n) }
{
    let mut rest = n;
    for i in (0..k).rev() {
        out[at + i] = digit(rest % base);
        rest /= base;
    }
}

// How many decimal digits n has.
fn width(n: u64) -> usize
    ensures value { result ≡ width_of 19 n }
    ensures upper_bound { result ≤ 20 }
{
    if n < 10 { 1 } else { n.ilog10() as usize + 1 }
}

// n in decimal, from the place at on; the place behind it.
pub fn put_decimal(out: &mut [u8], at: usize, n: u64) -> usize
    requires { at + 20 ≤ length out.old }
    ensures out_after { out.new ≡ sets out.old at (decimal n) }
    ensures value { result ≡ at + length (decimal n) }
    ensures upper_bound { result ≤ at + 20 }
{
    let w = width(n);
    put_digits(out, at, 10, w, n);
    at + w
}
