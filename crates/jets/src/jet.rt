// An interval with the intervals of its two derivatives.
ghost use Rattle.std.specs.Prelude.{◌≡◌};
ghost use Rattle.jets.specs.Jet.{constant_of, parameter_of, second_of, jet_sub, jet_scale};

use interval::Interval;

#[derive(Clone, Copy)]
pub struct Jet {
    pub v: Interval,
    pub du: Interval,
    pub dv: Interval,
}

impl Jet {
    pub fn constant(v: Interval) -> Jet
        ensures { result ≡ constant_of v }
    {
        let z = Interval::point(0.0);
        Jet { v, du: z, dv: z }
    }

    pub fn sub(self, b: Jet) -> Jet
        ensures { result ≡ jet_sub self b }
    {
        Jet {
            v: self.v.sub(b.v),
            du: self.du.sub(b.du),
            dv: self.dv.sub(b.dv),
        }
    }

    pub fn scale(self, b: Interval) -> Jet
        ensures { result ≡ jet_scale self b }
    {
        Jet {
            v: self.v.mul(b),
            du: self.du.mul(b),
            dv: self.dv.mul(b),
        }
    }
}

// The parameter as a jet.
pub fn parameter(range: Interval) -> Jet
    ensures { result ≡ parameter_of range }
{
    Jet {
        v: range,
        du: Interval::point(1.0),
        dv: Interval::point(0.0),
    }
}

// The second parameter as a jet.
pub fn second(range: Interval) -> Jet
    ensures { result ≡ second_of range }
{
    Jet {
        v: range,
        du: Interval::point(0.0),
        dv: Interval::point(1.0),
    }
}
