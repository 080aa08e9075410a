// Where the snakes start: every body traced from its start, and the length below which all of them lie apart.
#![tactic(auto)]

mod trace;

ghost use Rattle.std.specs.Prelude.{◌≡◌, ◌≤◌};
ghost use Rattle.placement.specs.Apart.{span_of};

pub use trace::place_snakes;

// The length below which all bodies lie apart and inside.
pub fn span(g: u64, n: u64) -> u64
    requires { (g ≤ 32) × (n ≤ 8) }
    ensures { result ≡ span_of g n }
{
    g / 3 + 2 * g / (n + 1)
}
