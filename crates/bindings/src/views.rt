// The calls on what an agent sees, may do and gets.
ghost use Rattle.std.specs.Prelude.{◌≡◌, length, Ok};
ghost use Rattle.rules.specs.Headings.{number_of, heading_of, action_of, turned};
ghost use Rattle.rules.specs.Says.{seen, shape_of};
ghost use Rattle.rules.specs.Calls.{observe_says, actor_says, legal_says, key_says, truncation_says, reward_says, space_says, action_says};
ghost use Rattle.flat.specs.Flat.{grid_in, weights_in, event_in, event_bytes};
ghost use Rattle.bindings.specs.Exports.{one, whole, bit_number, key_numbers, action_numbers, Tells, Writes, FlatSpace};

use flat::{event_bytes, event_in, grid_in, refusal_number, weights_in};
use rules::{Actor, Heading, Legal, Refusal, Space};
use telling::tell_words;

// How many numbers. Refusals 50 to 56, 26, 29.
#[unsafe(no_mangle)]
pub extern "C" fn lundaspro_flat_observe(
    image: &[u16],
    agent: u64,
    obs: &mut [f32],
    written: &mut [u64; 1],
) -> u64
    ensures { Writes whole (observe_says image.now agent (length obs.old)) obs.old obs.new written.old written.new result }
{
    tell_words(arena::observe(image, agent, obs), written)
}

// A space's five numbers and two bounds.
fn tell_space(a: Result<Space, Refusal>, sizes: &mut [u64; 5], bounds: &mut [f32; 2]) -> u64
    ensures { FlatSpace (seen shape_of a) sizes.old sizes.new bounds.old bounds.new result }
{
    match a {
        Ok(
            Space::Box {
                planes,
                rows,
                cols,
                low,
                high,
            },
        ) => {
            *sizes = [0, 0, planes as u64, rows as u64, cols as u64];
            *bounds = [low, high];
            0
        }
        Ok(Space::Discrete(n)) => {
            *sizes = [1, n as u64, 0, 0, 0];
            *bounds = [0.0, 0.0];
            0
        }
        Err(r) => refusal_number(r),
    }
}

// Refusal 5.
#[unsafe(no_mangle)]
pub extern "C" fn lundaspro_flat_observation_space(
    grid: u64,
    sizes: &mut [u64; 5],
    bounds: &mut [f32; 2],
) -> u64
    ensures { FlatSpace (space_says (grid_in grid)) sizes.old sizes.new bounds.old bounds.new result }
{
    tell_space(arena::observation_space(grid_in(grid)), sizes, bounds)
}

// Never refused.
#[unsafe(no_mangle)]
pub extern "C" fn lundaspro_flat_action_space(sizes: &mut [u64; 5], bounds: &mut [f32; 2]) -> u64
    ensures { FlatSpace action_says sizes.old sizes.new bounds.old bounds.new result }
{
    tell_space(Ok(arena::action_space()), sizes, bounds)
}

// Whether there is a key, and the key. Refusals 50 to 56.
#[unsafe(no_mangle)]
pub extern "C" fn lundaspro_flat_length_cell(image: &[u16], key: &mut [u64; 2]) -> u64
    ensures { Tells key_numbers (key_says image.now) key.old key.new result }
{
    match arena::length_cell(image) {
        Ok(Some(n)) => {
            *key = [1, n];
            0
        }
        Ok(None) => {
            *key = [0, 0];
            0
        }
        Err(r) => refusal_number(r),
    }
}

// 1 where chance acts. Refusals 50 to 56.
#[unsafe(no_mangle)]
pub extern "C" fn lundaspro_flat_actor(image: &[u16], chance: &mut [u64; 1]) -> u64
    ensures { Tells bit_number (actor_says image.now) chance.old chance.new result }
{
    match arena::actor(image) {
        Ok(Actor::Chance) => {
            *chance = [1];
            0
        }
        Ok(Actor::Simultaneous) => {
            *chance = [0];
            0
        }
        Err(r) => refusal_number(r),
    }
}

// How many actions, from 0 on. Refusals 50 to 56, 26.
#[unsafe(no_mangle)]
pub extern "C" fn lundaspro_flat_legal_actions(
    image: &[u16],
    agent: u64,
    actions: &mut [u64; 1],
) -> u64
    ensures { Tells action_numbers (legal_says image.now agent) actions.old actions.new result }
{
    match arena::legal_actions(image, agent) {
        Ok(Legal::AnyAction) => {
            *actions = [3];
            0
        }
        Ok(Legal::NoAction) => {
            *actions = [0];
            0
        }
        Err(r) => refusal_number(r),
    }
}

// The marked event. Refusals 50 to 56, 26.
#[unsafe(no_mangle)]
pub extern "C" fn lundaspro_flat_truncation(
    image: &[u16],
    agent: u64,
    event: &[u8; 8],
    marked: &mut [u8; 8],
) -> u64
    ensures { Tells event_bytes (truncation_says image.now agent (event_in event.now)) marked.old marked.new result }
{
    match arena::truncation(image, agent, event_in(event)) {
        Ok(told) => {
            *marked = event_bytes(told);
            0
        }
        Err(r) => refusal_number(r),
    }
}

// Refusal 31, for infinities and NaN.
#[unsafe(no_mangle)]
pub extern "C" fn lundaspro_flat_reward(
    weights: &[f64; 7],
    event: &[u8; 8],
    sum: &mut [f64; 1],
) -> u64
    ensures { Tells one (reward_says (weights_in weights.now) (event_in event.now)) sum.old sum.new result }
{
    match arena::reward(weights_in(weights), event_in(event)) {
        Ok(x) => {
            *sum = [x];
            0
        }
        Err(r) => refusal_number(r),
    }
}

fn heading_in(number: u64) -> Heading
    ensures { result ≡ heading_of number }
{
    match number {
        0 => Heading::Up,
        1 => Heading::Right,
        2 => Heading::Down,
        _ => Heading::Left,
    }
}

// A heading above 3 is read as 3, an action above 2 as 2. Never refused.
#[unsafe(no_mangle)]
pub extern "C" fn lundaspro_flat_relative_to_absolute(
    heading: u64,
    action: u64,
    after: &mut [u64; 1],
) -> u64
    ensures { Tells one (Ok (number_of (turned (heading_of heading) (action_of action)))) after.old after.new result }
{
    let to = arena::relative_to_absolute(heading_in(heading), grid::action_of(action));
    *after = [image::number_of(to) as u64];
    0
}
