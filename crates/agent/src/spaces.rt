// The shapes of what is seen and of what is done.
ghost use Rattle.rules.specs.Promises.{ObservationSpace, ActionSpace};

use rules::{Refusal, Space};

// Five planes of numbers from 0.0 to 1.0.
pub fn observation_space(grid: i32) -> Result<Space, Refusal>
    ensures { ObservationSpace grid result }
{
    if grid < 1 || 32 < grid {
        return Err(Refusal::Grid);
    }
    let side = grid as usize;
    Ok(Space::Box {
        planes: 5,
        rows: side,
        cols: side,
        low: 0.0,
        high: 1.0,
    })
}

pub fn action_space() -> Space
    ensures { ActionSpace result }
{
    Space::Discrete(3)
}
