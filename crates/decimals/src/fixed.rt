// A double as a decimal with nine digits behind the point.
ghost use Rattle.std.specs.Prelude.{◌≡◌, cond, ltb, ◌+◌, ◌-◌, ◌*◌, ◌^◌, ◌≤◌, ◌<◌, [], ◌∷◌, length};
ghost use Rattle.std.proofs.lemmas.List.Edits.{sets};
ghost use Rattle.decimals.specs.Fixed.{minus, whole, billionths, fixed};
ghost use Rattle.decimals.specs.Figures.{number, Figures};

use crate::figures::{count, put_figures, round};
use crate::text::store;
use interval::bits::bits_of;

fn put_minus(out: &mut [u8], at: usize, negative: bool) -> usize
    requires { at < length out.old }
    ensures out_after { out.new ≡ sets out.old at (minus negative) }
    ensures value { result ≡ at + length (minus negative) }
    ensures upper_bound { result ≤ at + 1 }
{
    if negative {
        out[at] = b'-';
        return at + 1;
    }
    at
}

// How many of n digits stand before the point.
fn ahead(n: usize) -> usize
    ensures { result ≡ cond (ltb 10 n) (n - 9) 1 }
{
    if 10 < n {
        return n - 9;
    }
    1
}

// The number of a run as billionths.
fn put_billionths(out: &mut [u8], at: usize, negative: bool, run: &[u64]) -> usize
    requires at_in_bounds { at + 330 ≤ length out.old }
    requires figures { Figures run.now }
    requires run_len { length run.now ≡ 330 }
    requires run_bound { number run.now < 10 ^ 318 }
    ensures out_after { out.new ≡ sets out.old at (billionths negative (number run.now)) }
    ensures value { result ≡ at + length (billionths negative (number run.now)) }
    ensures upper_bound { result ≤ at + 330 }
{
    let n = count(run);
    let start = put_minus(out, at, negative & (n > 0));
    let w = ahead(n);
    put_figures(out, start, run, 9, w);
    let point = start + w;
    out[point] = b'.';
    put_figures(out, point + 1, run, 0, 9);
    point + 10
}

// ±q * 2^j / 2^1074, rounded to billionths.
fn put_finite(out: &mut [u8], at: usize, negative: bool, away: bool, q: u64, j: usize) -> usize
    requires at_in_bounds { at + 330 ≤ length out.old }
    requires q_bound { q < 9007199254740992 }
    requires j_bound { j ≤ 2045 }
    ensures out_after { out.new ≡ sets out.old at (billionths negative (whole away (q * 2 ^ j * 1000000000) (2 ^ 1074))) }
    ensures value { result ≡ at + length (billionths negative (whole away (q * 2 ^ j * 1000000000) (2 ^ 1074))) }
    ensures upper_bound { result ≤ at + 330 }
{
    let mut run = [0u64; 330];
    round(&mut run, away, q, j);
    put_billionths(out, at, negative, &run)
}

// A double rounded down or up to nine digits behind the point; the place behind it.
pub fn put_fixed(out: &mut [u8], at: usize, up: bool, x: f64) -> usize
    requires { at + 330 ≤ length out.old }
    ensures out_after { out.new ≡ sets out.old at (fixed up x) }
    ensures value { result ≡ at + length (fixed up x) }
    ensures upper_bound { result ≤ at + 330 }
{
    let bits = bits_of(x);
    let negative = bits >= 0x8000_0000_0000_0000;
    let size = bits % 0x8000_0000_0000_0000;
    if size > 0x7ff0_0000_0000_0000 {
        return store(out, at, b"nan");
    }
    if size == 0x7ff0_0000_0000_0000 {
        let next = put_minus(out, at, negative);
        return store(out, next, b"inf");
    }
    let field = (size / 0x10_0000_0000_0000) as usize;
    let rest = size % 0x10_0000_0000_0000;
    if field == 0 {
        return put_finite(out, at, negative, up != negative, rest, 0);
    }
    put_finite(
        out,
        at,
        negative,
        up != negative,
        0x10_0000_0000_0000 + rest,
        field - 1,
    )
}
