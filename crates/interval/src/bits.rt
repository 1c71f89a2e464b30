// Doubles and their bit patterns.
ghost use Rattle.std.specs.Prelude.{◌≡◌, from_bits, to_bits};
ghost use Rattle.std.specs.Float.{binary64};

// The double of a bit pattern. `from_bits` is not defined at a NaN's, so every NaN pattern is 0.0 / 0.0.
pub fn double_of(bits: u64) -> f64
    ensures { result ≡ from_bits binary64 bits }
{
    if bits % 0x8000_0000_0000_0000 > 0x7ff0_0000_0000_0000 {
        return 0.0 / 0.0;
    }
    f64::from_bits(bits)
}

// The bit pattern of a double. `to_bits` is not defined at a NaN, so every NaN is the quiet one with no sign and no payload.
pub fn bits_of(x: f64) -> u64
    ensures { result ≡ to_bits binary64 x }
{
    if x != x {
        return 0x7ff8_0000_0000_0000;
    }
    f64::to_bits(x)
}
