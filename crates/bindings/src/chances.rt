// The calls on chance: count, draw, rank, the index of a unit number.
ghost use Rattle.std.specs.Prelude.{length};
ghost use Rattle.rules.specs.Calls.{count_says, draw_says, rank_says};
ghost use Rattle.unit.specs.Calls.{outcome_says};
ghost use Rattle.bindings.specs.Exports.{one, Tells, FlatDraws};

use flat::refusal_number;
use telling::tell_number;

// How many outcomes. Refusals 50 to 56, 23, 28.
#[unsafe(no_mangle)]
pub extern "C" fn lundaspro_flat_count(image: &[u16], value: &mut [u64; 1]) -> u64
    ensures { Tells one (count_says image.now) value.old value.new result }
{
    tell_number(arena::count(image), value)
}

// The words of the image, the cells of the list. Refusals 50 to 56, 23, 28, 27, 29.
#[unsafe(no_mangle)]
pub extern "C" fn lundaspro_flat_draw(
    image: &[u16],
    index: u64,
    out: &mut [u16],
    list: &mut [u16],
    drawn: &mut [u64; 2],
) -> u64
    ensures { FlatDraws (draw_says image.now index (length out.old) (length list.old)) out.old out.new list.old list.new drawn.old drawn.new result }
{
    match arena::draw(image, index, out, list) {
        Ok(made) => {
            *drawn = [made.words as u64, made.cells as u64];
            0
        }
        Err(r) => refusal_number(r),
    }
}

// The index. Refusals 50 to 56, 23, 28, 30.
#[unsafe(no_mangle)]
pub extern "C" fn lundaspro_flat_rank(image: &[u16], list: &[u16], index: &mut [u64; 1]) -> u64
    ensures { Tells one (rank_says image.now list.now) index.old index.new result }
{
    tell_number(arena::rank(image, list), index)
}

// The index. Refusals 80, 81.
#[unsafe(no_mangle)]
pub extern "C" fn lundaspro_flat_outcome_of(count: u64, u: f64, index: &mut [u64; 1]) -> u64
    ensures { Tells one (outcome_says count u) index.old index.new result }
{
    tell_number(arena::outcome_of(count, u), index)
}
