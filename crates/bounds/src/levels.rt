// De Boor's levels on one parameter.
ghost use Rattle.std.specs.Prelude.{◌≡◌, ℕ, ◌+◌, ◌≤◌, ◌<◌, length};
ghost use Rattle.jets.specs.declared.net.Control.{Control};
ghost use Rattle.jets.specs.Net.{share_at, neighbours, deboor_of};
ghost use Rattle.bounds.specs.Levels.{held, LevelMeets};

use jets::jet::Jet;
use jets::net::{Control, step};
use knots::refusal::Refusal;

// A parameter of degree `degree` on a span of its knots.
#[derive(Clone, Copy)]
pub struct Along {
    pub degree: usize,
    pub span: usize,
    pub t: Jet,
}

// Two neighbours under the share of a place.
fn step_at(
    along: Along,
    knots: &[f64],
    level: usize,
    j: usize,
    a: Control,
    b: Control,
) -> Result<Control, Refusal>
    requires degree_le_span { along.degree ≤ along.span }
    requires degree_in_bounds { along.span + along.degree < length knots.now }
    requires level_nonzero { 0 < level }
    requires level_le_j { level ≤ j }
    requires j_le_degree { j ≤ along.degree }
    ensures { result ≡ neighbours (share_at knots.now along.degree along.span along.t level j) a b }
{
    let low = along.span - along.degree + j;
    let high = along.span + j - level + 1;
    step(along.t, knots[low], knots[high], a, b)
}

// One level of a net, from the degree down since a place takes the one before it as the level found it.
fn one_level(along: Along, knots: &[f64], level: usize, net: &mut [Control]) -> Result<(), Refusal>
    requires degree_le_span { along.degree ≤ along.span }
    requires degree_in_bounds { along.span + along.degree < length knots.now }
    requires level_nonzero { 0 < level }
    requires level_le_degree { level ≤ along.degree }
    requires degree_in_net { along.degree < length net.old }
    ensures { (c : ℕ → Control) → LevelMeets knots.now along.degree along.span along.t (λ x. x) c level (held net.old) (held net.new) result }
{
    for j in (level..=along.degree).rev() {
        net[j] = step_at(along, knots, level, j, net[j - 1], net[j])?;
    }
    Ok(())
}

// All levels on a net that was filled.
pub fn all_levels(along: Along, knots: &[f64], net: &mut [Control]) -> Result<Control, Refusal>
    requires degree_le_span { along.degree ≤ along.span }
    requires degree_in_bounds { along.span + along.degree < length knots.now }
    requires degree_in_net { along.degree < length net.old }
    ensures { result ≡ deboor_of knots.now along.degree along.span along.t (held net.old) }
{
    for level in 1..=along.degree {
        one_level(along, knots, level, net)?;
    }
    Ok(net[along.degree])
}
