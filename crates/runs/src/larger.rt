// The larger of two numbers.
ghost use Rattle.std.specs.Prelude.{◌≡◌};
ghost use Rattle.runs.specs.Larger.{larger};

// The first where neither is larger.
pub fn larger_of(a: f64, b: f64) -> f64
    ensures { result ≡ larger a b }
{
    if a < b {
        return b;
    }
    a
}
