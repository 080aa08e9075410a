// 'Surviving eaters remove their food': the cells eaten.
ghost use Rattle.step.specs.Eaten.{EatenAre};

use arrayvec::ArrayVec;
use consequences::Snakes;

pub fn eaten_of(snakes: &Snakes) -> ArrayVec<u16, 8>
    ensures { EatenAre snakes.now.all snakes.now.count result.items }
{
    let mut eaten = ArrayVec::new();
    for a in snakes.each() {
        if a.ate {
            eaten.push(a.cell);
        }
    }
    eaten
}
