// A lent run of bytes is set to 0.
ghost use Rattle.std.specs.Prelude.{◌≡◌, length, replicate};

pub fn clear_bytes(bytes: &mut [u8])
    ensures { bytes.new ≡ replicate (length bytes.old) 0 }
{
    bytes.fill(0);
}
