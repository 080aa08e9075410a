// The reward of an event: seven binary64 weights, added in one order.
ghost use Rattle.std.specs.Prelude.{◌≡◌};
ghost use Rattle.rules.specs.Reward.{all_finite, plus, reward_dead, reward_living};
ghost use Rattle.rules.specs.Promises.{Rewards};

use rules::{Event, Refusal, Weights};

// Strict tests: no order of branches to follow.
fn all_finite(w: Weights) -> bool
    ensures { result ≡ all_finite w }
{
    w.step.is_finite()
        & w.food.is_finite()
        & w.loss.is_finite()
        & w.draw.is_finite()
        & w.kill.is_finite()
        & w.win.is_finite()
        & w.survival.is_finite()
}

// x, and w added where the flag stands.
fn added(x: f64, flag: bool, w: f64) -> f64
    ensures { result ≡ plus x flag w }
{
    if flag { x + w } else { x }
}

fn of_dead(w: Weights, e: Event) -> f64
    ensures { result ≡ reward_dead w e }
{
    let x = added(w.step, e.lost, w.loss);
    added(x, e.drew, w.draw)
}

fn of_living(w: Weights, e: Event) -> f64
    ensures { result ≡ reward_living w e }
{
    let x = added(w.step, e.ate_food, w.food);
    let x = added(x, e.killed_opponent, w.kill);
    let x = added(x, e.won, w.win);
    let x = added(x, e.lost, w.loss);
    added(x, e.survived_to_max_ticks, w.survival)
}

pub fn reward(weights: Weights, event: Event) -> Result<f64, Refusal>
    ensures { Rewards weights event result }
{
    if !all_finite(weights) {
        return Err(Refusal::Weight);
    }
    if event.died {
        return Ok(of_dead(weights, event));
    }
    Ok(of_living(weights, event))
}
