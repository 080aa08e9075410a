// Where the words of an image stand: five of contents, four a snake, then the bodies.
#![tactic(auto)]

ghost use Rattle.std.specs.Prelude.{◌≡◌, ◌+◌, ◌*◌, ◌<◌};

// Snake i's start word.
pub fn start_at(i: usize) -> usize
    requires { i < 65536 }
    ensures { result ≡ 5 + 4 * i }
{
    5 + 4 * i
}

pub fn length_at(i: usize) -> usize
    requires { i < 65536 }
    ensures { result ≡ 6 + 4 * i }
{
    6 + 4 * i
}

pub fn heading_at(i: usize) -> usize
    requires { i < 65536 }
    ensures { result ≡ 7 + 4 * i }
{
    7 + 4 * i
}

pub fn alive_at(i: usize) -> usize
    requires { i < 65536 }
    ensures { result ≡ 8 + 4 * i }
{
    8 + 4 * i
}

// The first word past the records of n snakes.
pub fn front(n: usize) -> usize
    requires { n < 65536 }
    ensures { result ≡ 5 + 4 * n }
{
    5 + 4 * n
}
