// One step of the arena: the refusals in their order, then all are judged on one world, and the judgement is applied.
#![tactic(auto)]

mod bodies;
mod conclusion;
mod food;
mod gate;
mod next;

ghost use Rattle.std.specs.Prelude.{◌≡◌, length};
ghost use Rattle.rules.specs.Image.{snakes_in, state_of};
ghost use Rattle.rules.specs.Facts.{Sound};
ghost use Rattle.rules.specs.Step.{stepped};
ghost use Rattle.rules.specs.Promises.{Steps};
ghost use Rattle.step.specs.Applied.{Applied};

pub use conclusion::{apply, conclude};
pub use gate::asked;
use judge::judge;
use rules::{Refusal, Setting, Stepped};

// The step of a checked image: judge all on one world, then apply.
fn go_on(
    setting: Setting,
    image: &[u16],
    actions: &[u64],
    out: &mut [u16],
) -> Result<Stepped, Refusal>
    requires sound { Sound image.now }
    requires actions_len { length actions.now ≡ snakes_in image.now }
    ensures { Applied (stepped setting (state_of image.now) actions.now) out.old out.new result }
{
    let judged = judge(image, actions);
    apply(setting, image, judged, out)
}

pub fn step(
    setting: Setting,
    image: &[u16],
    actions: &[u64],
    out: &mut [u16],
) -> Result<Stepped, Refusal>
    ensures { Steps setting image.now actions.now out.old out.new result }
{
    asked(setting, image, actions)?;
    go_on(setting, image, actions, out)
}
