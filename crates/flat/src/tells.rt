// What is told in numbers: a refusal, a flag, an event's bytes, a hit's words.
ghost use Rattle.std.specs.Prelude.{◌≡◌};
ghost use Rattle.lists.specs.Choice.{bit};
ghost use Rattle.flat.specs.Flat.{refusal_number, event_bytes, events_bytes, hit_words, hits_words};

use rules::{Event, Hit, Refusal};

// The number, and 256 times the word: no refusal's word is above 65,535.
pub fn refusal_number(r: Refusal) -> u64
    ensures { result ≡ refusal_number r }
{
    u64::from(r.number()) + 256 * (r.word() % 65536) as u64
}

pub fn bit(flag: bool) -> u64
    ensures { result ≡ bit flag }
{
    u64::from(flag)
}

fn byte(flag: bool) -> u8
    ensures { result ≡ bit flag }
{
    u8::from(flag)
}

pub fn event_bytes(e: Event) -> [u8; 8]
    ensures { result ≡ event_bytes e }
{
    [
        byte(e.ate_food),
        byte(e.died),
        e.death_cause.number(),
        byte(e.killed_opponent),
        byte(e.won),
        byte(e.lost),
        byte(e.drew),
        byte(e.survived_to_max_ticks),
    ]
}

pub fn events_bytes(e: [Event; 8]) -> [[u8; 8]; 8]
    ensures { result ≡ events_bytes e }
{
    [
        event_bytes(e[0]),
        event_bytes(e[1]),
        event_bytes(e[2]),
        event_bytes(e[3]),
        event_bytes(e[4]),
        event_bytes(e[5]),
        event_bytes(e[6]),
        event_bytes(e[7]),
    ]
}

// The snake that was hit, and the position.
fn hit_words(h: Option<Hit>) -> [u16; 2]
    ensures { result ≡ hit_words h }
{
    match h {
        None => [8, 0],
        Some(hit) => [u16::from(hit.snake), hit.position],
    }
}

pub fn hits_words(h: [Option<Hit>; 8]) -> [[u16; 2]; 8]
    ensures { result ≡ hits_words h }
{
    [
        hit_words(h[0]),
        hit_words(h[1]),
        hit_words(h[2]),
        hit_words(h[3]),
        hit_words(h[4]),
        hit_words(h[5]),
        hit_words(h[6]),
        hit_words(h[7]),
    ]
}
