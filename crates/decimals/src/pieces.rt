// Pieces of a text, stored into a run of bytes one behind the other. Where the run has no room for a piece of its kind, nothing is stored.
ghost use Rattle.std.specs.Prelude.{◌≡◌, ◌++◌, ◌+◌, ◌≤◌, length, leb};
ghost use Rattle.decimals.specs.Text.{decimal, spaced_bits};
ghost use Rattle.decimals.specs.Fixed.{fixed};
ghost use Rattle.decimals.specs.Stored.{Stored, Put};

use crate::fixed::put_fixed;
use crate::text::{put_decimal, put_digits, store};
use interval::bits::bits_of;

// A run of n bytes has room for k from the place at on.
fn has_room(n: usize, at: usize, k: usize) -> bool
    ensures { result ≡ leb (at + k) n }
{
    if n < k {
        return false;
    }
    at <= n - k
}

// A text, from the place at on; the place behind it.
pub fn put_text(out: &mut [u8], at: usize, text: &[u8]) -> usize
    ensures { Put (length text.now) out.old at text.now out.new result }
{
    if has_room(out.len(), at, text.len()) {
        return store(out, at, text);
    }
    at
}

// A text and a decimal behind it, rounded down or up.
pub fn put_number(out: &mut [u8], at: usize, lead: &[u8], up: bool, x: f64) -> usize
    ensures { Put (length lead.now + 330) out.old at (lead.now ++ fixed up x) out.new result }
{
    if has_room(out.len(), at, lead.len() + 330) {
        let next = store(out, at, lead);
        return put_fixed(out, next, up, x);
    }
    at
}

// A text and a whole number behind it.
pub fn put_label(out: &mut [u8], at: usize, lead: &[u8], n: u64) -> usize
    ensures { Put (length lead.now + 20) out.old at (lead.now ++ decimal n) out.new result }
{
    if has_room(out.len(), at, lead.len() + 20) {
        let next = store(out, at, lead);
        return put_decimal(out, next, n);
    }
    at
}

// A space and the bits of a double.
pub fn put_bits(out: &mut [u8], at: usize, x: f64) -> usize
    ensures { Put 17 out.old at (spaced_bits x) out.new result }
{
    if has_room(out.len(), at, 17) {
        out[at] = b' ';
        put_digits(out, at + 1, 16, 16, bits_of(x));
        return at + 17;
    }
    at
}
