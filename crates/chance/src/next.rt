// The answer of a draw (`apply_chance_node`): the cells in the order drawn, and the next image.
ghost use Rattle.std.specs.Prelude.{◌≡◌, not, ◌&&◌, ◌||◌, ◌-◌, ◌≤◌, ◌<◌, eqb, length};
ghost use Rattle.lists.specs.Choice.{◌if◌else◌};
ghost use Rattle.lists.specs.Lists.{over_front};
ghost use Rattle.rules.specs.Facts.{Sound};
ghost use Rattle.rules.specs.Chance.{drawn_from};
ghost use Rattle.rules.specs.Promises.{Draws};
ghost use Rattle.strips.specs.Marks.{unmarked, Open};
ghost use Rattle.chance.specs.Next.{next_words, Growing};
ghost use Rattle.chance.specs.Answers.{draw_of, Ready, Drew};

use image::{put_all, write_contents};
use lists::write_at;
use outcomes::{Odds, odds_of, pick_cells, split};
use rules::{Drawn, Refusal};
use strips::count_strips;

// The cells that the index draws, over the whole list.
fn draw_list(list: &mut [u16], index: u64, free: usize, area: usize, strips: &mut [u64; 16])
    requires fact { Open area free strips.old }
    requires list_len_bound { length list.old ≤ free }
    ensures { list.new ≡ drawn_from (unmarked strips.old area) (length list.old) index }
{
    split(list, free, index);
    let mut tally = [0u8; 16];
    count_strips(strips, area, &mut tally);
    pick_cells(list, area, strips, &mut tally);
}

// A birth draw takes one apple from what is due, where a cell is free.
fn due_after(due: usize, birth: bool, free: usize) -> usize
    requires { 0 < due }
    ensures { result ≡ (due - 1 if birth && not (eqb free 0) else 0) }
{
    if birth && free != 0 { due - 1 } else { 0 }
}

fn birth_after(due: usize, birth: bool, free: usize) -> bool
    ensures { result ≡ (birth && not (eqb free 0 || eqb due 1)) }
{
    birth && !(free == 0 || due == 1)
}

// The image copied, words 2 to 4 anew, and each cell put into the food.
fn write_next(image: &[u16], due: usize, birth: bool, cells: &[u16], out: &mut [u16])
    requires { Growing image.now due cells.now (length out.old) }
    ensures { out.new ≡ over_front (next_words image.now due birth cells.now) out.old }
{
    let foods = image[4] as usize;
    let at = image.len() - foods;
    write_at(out, 0, image);
    write_contents(
        out,
        image[0] as usize,
        image[1] as usize,
        due,
        birth,
        foods + cells.len(),
    );
    put_all(&mut out[at..], foods, cells);
}

// The list, then the image, once both buffers have room.
fn draw_into(
    image: &[u16],
    index: u64,
    found: Odds,
    strips: &mut [u64; 16],
    out: &mut [u16],
    list: &mut [u16],
) -> Drawn
    requires { Ready image.now index found strips.old (length out.old) (length list.old) }
    ensures { Drew (draw_of image.now index) out.old out.new list.old list.new result }
{
    let g = image[1] as usize;
    let due = image[2] as usize;
    let birth = image[3] == 1;
    draw_list(&mut list[0..found.size], index, found.free, g * g, strips);
    let left = due_after(due, birth, found.free);
    let stays = birth_after(due, birth, found.free);
    write_next(image, left, stays, &list[0..found.size], out);
    Drawn {
        words: image.len() + found.size,
        cells: found.size,
    }
}

// Refusals 23, 28, 27, 29; nothing is written before the last of them.
pub fn draw_due(
    image: &[u16],
    index: u64,
    out: &mut [u16],
    list: &mut [u16],
) -> Result<Drawn, Refusal>
    requires { Sound image.now }
    ensures { Draws image.now index out.old out.new list.old list.new result }
{
    if image[2] == 0 {
        return Err(Refusal::NoneDue);
    }
    let mut strips = [0u64; 16];
    let found = odds_of(image, &mut strips);
    let count = found.count.ok_or(Refusal::Count)?;
    if count <= index {
        return Err(Refusal::Outcome);
    }
    if out.len() < image.len() + found.size || list.len() < found.size {
        return Err(Refusal::Buffer);
    }
    Ok(draw_into(image, index, found, &mut strips, out, list))
}
