// The outcome of a unit number, as the Rust's uniform draw has it.
#![tactic(auto)]

ghost use Rattle.std.specs.Prelude.{◌≡◌};
ghost use Rattle.unit.specs.UnitNumber.{outside_count, is_unit, outcome_of};
ghost use Rattle.unit.specs.Promises.{Chooses};
ghost use Rattle.unit.specs.Chosen.{Choosable};

use rules::Refusal;

// 0, or above 2^53. Strict tests, here and below: no order of branches to follow.
fn is_outside(count: u64) -> bool
    ensures { result ≡ outside_count count }
{
    (count == 0) | (9007199254740992 < count)
}

// At least 0, of either sign, and below 1: no NaN and no infinity is.
fn is_unit(u: f64) -> bool
    ensures { result ≡ is_unit u }
{
    (0.0 <= u) & (u < 1.0)
}

// The rounded product, cut, at most count - 1. The cast is defined only where it loses nothing.
fn index_of(count: u64, u: f64) -> u64
    requires { Choosable count u }
    ensures { result ≡ outcome_of count u }
{
    let whole = std::num::truncating_f64_to_u64((count as f64) * u);
    whole.min(count - 1)
}

pub fn outcome_of(count: u64, u: f64) -> Result<u64, Refusal>
    ensures { Chooses count u result }
{
    if is_outside(count) {
        return Err(Refusal::UnitCount);
    }
    if !is_unit(u) {
        return Err(Refusal::UnitNumber);
    }
    Ok(index_of(count, u))
}
