// The check of a setting (refusals 1 to 12 without 7), whether an image is of another one (21), and the initial state.
#![tactic(auto)]

mod images;
mod start;

ghost use Rattle.std.specs.Prelude.{◌≡◌, length};
ghost use Rattle.rules.specs.Calls.{setting_says};
ghost use Rattle.rules.specs.SettingParts.{start_cells};
ghost use Rattle.rules.specs.Promises.{Validates, Starts};
ghost use Rattle.setting.specs.Starts.{Startable};
ghost use Rattle.placed.specs.Tested.{Tested};

use bounds::{limits, side_of};
pub use images::differs;
use layout::front;
use placed::{check_places, place_check};
use rules::{Refusal, Setting};
use start::write_start;

// Where the setting is accepted, the cells of all bodies stand at the front of `cells` afterwards.
fn check(setting: Setting, cells: &mut [u16]) -> Result<(), Refusal>
    requires { length cells.old ≡ 1024 }
    ensures { Tested (setting_says setting) (start_cells setting) cells.old cells.new result }
{
    limits(setting)?;
    place_check(setting, cells)
}

pub fn validate(setting: Setting) -> Result<(), Refusal>
    ensures { Validates setting result }
{
    limits(setting)?;
    check_places(setting)
}

// The words of the initial state of an accepted setting; `cells` are the cells of its bodies.
fn write_state(setting: Setting, cells: &[u16], out: &mut [u16]) -> Result<usize, Refusal>
    requires { Startable setting cells.now }
    ensures { Starts setting out.old out.new result }
{
    let n = setting.num_snakes as usize;
    let size = setting.initial_length as usize;
    let words = front(n) + cells.len();
    if out.len() < words {
        return Err(Refusal::Buffer);
    }
    let g = side_of(setting.grid_size) as usize;
    write_start(out, n, g, setting.initial_food_count as usize, size, cells);
    Ok(words)
}

pub fn initial_state(setting: Setting, out: &mut [u16]) -> Result<usize, Refusal>
    ensures { Starts setting out.old out.new result }
{
    let mut cells = [0u16; 1024];
    check(setting, &mut cells)?;
    let total = setting.num_snakes as usize * setting.initial_length as usize;
    write_state(setting, &cells[..total], out)
}
