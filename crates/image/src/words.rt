// Single words of an image and how they are written: headings, flags, the contents, a snake's record.
ghost use Rattle.std.specs.Prelude.{◌≡◌, [], ◌∷◌, ◌+◌, ◌<◌, ◌≤◌, length};
ghost use Rattle.lists.specs.Choice.{bit};
ghost use Rattle.lists.specs.Lists.{write_at};
ghost use Rattle.rules.specs.Headings.{number_of, heading_of};

use rules::Heading;

pub fn number_of(h: Heading) -> u16
    ensures { result ≡ number_of h }
{
    match h {
        Heading::Up => 0,
        Heading::Right => 1,
        Heading::Down => 2,
        Heading::Left => 3,
    }
}

pub fn heading_of(word: u16) -> Heading
    ensures { result ≡ heading_of word }
{
    match word {
        0 => Heading::Up,
        1 => Heading::Right,
        2 => Heading::Down,
        _ => Heading::Left,
    }
}

pub fn flag(b: bool) -> u16
    ensures { result ≡ bit b }
{
    u16::from(b)
}

// Words 0 to 4.
pub fn write_contents(out: &mut [u16], n: usize, g: usize, due: usize, birth: bool, foods: usize)
    requires in_bounds { 5 ≤ length out.old }
    requires n_bound { (n < 65536) × (g < 65536) × (due < 65536) × (foods < 65536) }
    ensures { out.new ≡ write_at out.old 0 (n ∷ g ∷ due ∷ bit birth ∷ foods ∷ []) }
{
    let words = [n as u16, g as u16, due as u16, flag(birth), foods as u16];
    lists::write_at(out, 0, &words);
}

// A snake's four words.
pub fn write_record(
    out: &mut [u16],
    at: usize,
    start: usize,
    len: usize,
    heading: Heading,
    alive: bool,
)
    requires at_in_bounds { at + 4 ≤ length out.old }
    requires start_bound { (start < 65536) × (len < 65536) }
    ensures { out.new ≡ write_at out.old at (start ∷ len ∷ number_of heading ∷ bit alive ∷ []) }
{
    let words = [start as u16, len as u16, number_of(heading), flag(alive)];
    lists::write_at(out, at, &words);
}
