// Fields of a record: a tag, a length of two bytes and a payload.
ghost use Rattle.std.specs.Prelude.{◌≡◌, ◌+◌, ◌*◌, ◌<◌, ◌≤◌, length, drop};
ghost use Rattle.std.proofs.lemmas.List.Edits.{sets};
ghost use Rattle.record.specs.Format.{head, field, doubles};
ghost use Rattle.record.specs.Reading.{field_of, run_of, degree_of, Below, numbers, patterns};
ghost use Rattle.record.specs.Writing.{bits};

use crate::bytes::{double_at, put_u16, put_u64, u16_at};
use interval::bits::bits_of;

fn size(x: u64) -> usize
    requires { x < 65536 }
    ensures { result ≡ x }
{
    x as usize
}

// The length of the payload, where a whole field of this tag stands at place i.
fn field_at(s: &[u8], i: usize, tag: u8) -> Option<usize>
    ensures value { result ≡ field_of (drop i s.now) tag }
    ensures below { Below 65536 result }
{
    if s.len() < i {
        return None;
    }
    let left = s.len() - i;
    if left < 3 {
        return None;
    }
    if s[i] != tag {
        return None;
    }
    let n = size(u16_at(s, i + 1));
    if left - 3 < n {
        return None;
    }
    Some(n)
}

// The degree, of a first field that has two bytes.
pub fn degree_at(s: &[u8]) -> Option<usize>
    ensures { result ≡ degree_of s.now }
{
    let n = field_at(s, 0, 1)?;
    if n != 2 {
        return None;
    }
    Some(size(u16_at(s, 3)))
}

// How many doubles the field of this tag at place i has.
pub fn run_at(s: &[u8], i: usize, tag: u8) -> Option<usize>
    ensures value { result ≡ run_of (drop i s.now) tag }
    ensures below { Below 8192 result }
{
    let n = field_at(s, i, tag)?;
    if n % 8 != 0 {
        return None;
    }
    Some(n / 8)
}

// The n doubles from place i on, into the front of a run. Where n is 0 the place is not looked at.
pub fn fill(s: &[u8], i: usize, n: usize, out: &mut [f64])
    requires n_in_bounds { 0 < n → i + 8 * n ≤ length s.now }
    requires n_in_bounds_2 { n ≤ length out.old }
    ensures { out.new ≡ sets out.old 0 (numbers (patterns n (drop i s.now))) }
{
    for j in 0..n {
        out[j] = double_at(s, i + 8 * j);
    }
}

// A tag and a length.
pub fn put_head(out: &mut [u8], i: usize, tag: u8, n: usize)
    requires { i + 3 ≤ length out.old }
    ensures { out.new ≡ sets out.old i (head tag n) }
{
    out[i] = tag;
    put_u16(out, i + 1, n as u64);
}

// A field of doubles at place i.
pub fn put_run(out: &mut [u8], i: usize, tag: u8, xs: &[f64])
    requires { i + 3 + 8 * length xs.now ≤ length out.old }
    ensures { out.new ≡ sets out.old i (field tag (doubles (bits xs.now))) }
{
    put_head(out, i, tag, 8 * xs.len());
    let start = i + 3;
    for (j, x) in xs.iter().enumerate() {
        put_u64(out, start + 8 * j, bits_of(*x));
    }
}
