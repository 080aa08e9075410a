// How food is written less the cells eaten.
ghost use Rattle.std.specs.Prelude.{◌≡◌, ◌+◌, ◌≤◌, length};
ghost use Rattle.lists.specs.Lists.{write_at};
ghost use Rattle.cells.specs.Writers.{left};

// How many apples are left.
pub fn count_left(food: &[u16], eaten: &[u16]) -> usize
    ensures { result ≡ length (left eaten.now food.now) }
{
    if eaten.is_empty() {
        return food.len();
    }
    food.iter().filter(|x| !lists::holds(eaten, **x)).count()
}

// The apples that are left, written from index `from` on; all of them at once where none was eaten.
pub fn write_left(out: &mut [u16], from: usize, food: &[u16], eaten: &[u16])
    requires { from + length (left eaten.now food.now) ≤ length out.old }
    ensures { out.new ≡ write_at out.old from (left eaten.now food.now) }
{
    if eaten.is_empty() {
        lists::write_at(out, from, food);
        return;
    }
    let mut at = from;
    for x in food {
        if !lists::holds(eaten, *x) {
            out[at] = *x;
            at += 1;
        }
    }
}
