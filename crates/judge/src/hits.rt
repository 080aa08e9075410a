// A hit: a snake's number and a position of its moved body.
ghost use Rattle.std.specs.Prelude.{◌≡◌};
ghost use Rattle.judge.specs.Judging.{hit_in, HitFits};

use rules::Hit;

// Snake j, at place k of the rest of its body: the head is 0, the rest counts from 1.
pub fn hit_at(j: usize, k: usize) -> Hit
    requires { HitFits j k }
    ensures { result ≡ hit_in j k }
{
    Hit {
        snake: j as u8,
        position: (k + 1) as u16,
    }
}
