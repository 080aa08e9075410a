// The refusals of a step but the last, in their order: `setting, 50 to 56, 21, 22, 24, 25`.
ghost use Rattle.std.specs.Prelude.{◌≡◌, length};
ghost use Rattle.rules.specs.Image.{snakes_in, state_of};
ghost use Rattle.rules.specs.Facts.{Sound};
ghost use Rattle.rules.specs.Orders.{bad_action};
ghost use Rattle.step.specs.Asked.{AsksImage, Asks};

use rules::{Refusal, Setting};

// 25: a living snake's action above 2.
fn has_bad_action(image: &[u16], actions: &[u64]) -> bool
    requires sound { Sound image.now }
    requires actions_len { length actions.now ≡ snakes_in image.now }
    ensures { result ≡ bad_action (state_of image.now) actions.now }
{
    let mut bad = false;
    for (i, action) in actions.iter().enumerate() {
        bad |= (image[layout::alive_at(i)] == 1) & (2 < *action);
    }
    bad
}

// 21, 22, 24, 25, asked of a checked image.
fn asked_in(setting: Setting, image: &[u16], actions: &[u64]) -> Result<(), Refusal>
    requires { Sound image.now }
    ensures { AsksImage setting image.now actions.now result }
{
    if setting::differs(setting, image) {
        return Err(Refusal::OtherSetting);
    }
    if 0 < image[2] {
        return Err(Refusal::FoodDue);
    }
    if actions.len() != image[0] as usize {
        return Err(Refusal::ActionCount);
    }
    if has_bad_action(image, actions) {
        return Err(Refusal::Action);
    }
    Ok(())
}

// What is asked before anything is judged: every refusal of a step but 29.
pub fn asked(setting: Setting, image: &[u16], actions: &[u64]) -> Result<(), Refusal>
    ensures { Asks setting image.now actions.now result }
{
    setting::validate(setting)?;
    image::check_image(image)?;
    asked_in(setting, image, actions)
}
