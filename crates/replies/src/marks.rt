// Events and hits as numbers.
use crate::reply::put_numbers;
use rules::{Event, Hit};

// E, an event's eight numbers.
pub fn event_numbers(e: Event) -> [u64; 8] {
    [
        u64::from(e.ate_food),
        u64::from(e.died),
        u64::from(e.death_cause.number()),
        u64::from(e.killed_opponent),
        u64::from(e.won),
        u64::from(e.lost),
        u64::from(e.drew),
        u64::from(e.survived_to_max_ticks),
    ]
}

pub fn put_events(text: &mut [u8], from: usize, events: [Event; 8]) -> usize {
    let mut at = from;
    for event in events {
        at = put_numbers(text, at, &event_numbers(event));
    }
    at
}

// Who was hit and where; 8 and 0 for nobody.
fn hit_numbers(hit: Option<Hit>) -> [u64; 2] {
    match hit {
        Some(hit) => [u64::from(hit.snake), u64::from(hit.position)],
        None => [8, 0],
    }
}

pub fn put_hits(text: &mut [u8], from: usize, hits: [Option<Hit>; 8]) -> usize {
    let mut at = from;
    for hit in hits {
        at = put_numbers(text, at, &hit_numbers(hit));
    }
    at
}
