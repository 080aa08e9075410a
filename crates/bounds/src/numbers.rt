// Refusals 1 to 6 and 8: what a setting's numbers tell before any snake is placed.
ghost use Rattle.std.specs.Prelude.{◌≡◌, ◌^◌, ◌≤◌, ltb};
ghost use Rattle.lists.specs.Products.{falling};
ghost use Rattle.rules.specs.Setting.{side_of};
ghost use Rattle.rules.specs.SettingParts.{limits_says};
ghost use Rattle.bounds.specs.Crowds.{crowd_says};

use rules::{Refusal, Setting};

// The grid's side; 0 where the grid is negative.
pub fn side_of(grid: i32) -> u64
    ensures { result ≡ side_of grid }
{
    grid.max(0) as u64
}

// Whether the product of k factors from `area` downward is above 2^53; no product is one above 2^64 - 1.
fn too_many(area: usize, k: usize) -> bool
    requires { k ≤ area }
    ensures { result ≡ ltb (2 ^ 53) (falling area k) }
{
    match lists::product(area, k) {
        Some(product) => 9007199254740992 < product,
        None => true,
    }
}

// Refusals 6 and 8.
#[tactic(auto, unfolding(rules::specs::Says::by_table))]
fn crowded(n: u64, side: u64, food: u64) -> Result<(), Refusal>
    requires { side ≤ 32 }
    ensures { result ≡ crowd_says n side food }
{
    let area = side * side;
    if area < food {
        return Err(Refusal::FoodArea);
    }
    if too_many(area as usize, n.min(food) as usize) {
        return Err(Refusal::Product);
    }
    Ok(())
}

#[tactic(auto, unfolding(rules::specs::SettingParts::limits_says, rules::specs::Says::by_table))]
pub fn limits(setting: Setting) -> Result<(), Refusal>
    ensures { result ≡ limits_says setting }
{
    let n = setting.num_snakes;
    if n < 2 || 8 < n {
        return Err(Refusal::Snakes);
    }
    if setting.initial_length == 0 {
        return Err(Refusal::LengthZero);
    }
    if setting.win_food_lead == Some(0) {
        return Err(Refusal::LeadZero);
    }
    if setting.win_food_lead.is_some() && n != 2 {
        return Err(Refusal::LeadNotTwo);
    }
    if 32 < setting.grid_size {
        return Err(Refusal::Grid);
    }
    crowded(n, side_of(setting.grid_size), setting.initial_food_count)
}
