// Numbers in little-endian bytes.
ghost use Rattle.std.specs.Prelude.{◌≡◌, ◌+◌, ◌<◌, length, drop};
ghost use Rattle.std.proofs.lemmas.List.Edits.{sets};
ghost use Rattle.std.specs.Float.Ieee.{of_bits};
ghost use Rattle.std.specs.Float.{binary64};
ghost use Rattle.record.specs.Format.{little};
ghost use Rattle.record.specs.Reading.{number};

use interval::bits::double_of;

pub fn u16_at(s: &[u8], i: usize) -> u64
    requires { i + 1 < length s.now }
    ensures value { result ≡ number 2 (drop i s.now) }
    ensures upper_bound { result < 65536 }
{
    u64::from(u16::from_le_bytes(*s[i..].first_chunk().unwrap()))
}

pub fn double_at(s: &[u8], i: usize) -> f64
    requires { i + 7 < length s.now }
    ensures { result ≡ of_bits binary64 (number 8 (drop i s.now)) }
{
    double_of(u64::from_le_bytes(*s[i..].first_chunk().unwrap()))
}

pub fn put_u16(out: &mut [u8], i: usize, n: u64)
    requires { i + 1 < length out.old }
    ensures { out.new ≡ sets out.old i (little 2 n) }
{
    out[i..i + 2].copy_from_slice(&n.to_le_bytes()[..2]);
}

pub fn put_u64(out: &mut [u8], i: usize, n: u64)
    requires { i + 7 < length out.old }
    ensures { out.new ≡ sets out.old i (little 8 n) }
{
    out[i..i + 8].copy_from_slice(&n.to_le_bytes());
}
