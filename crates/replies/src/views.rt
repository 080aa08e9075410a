// What an agent sees and may do: observation, actor, legal actions, length cell and truncation.
use crate::buffers::planes_kept;
use crate::fields::{event_of, is_event};
use crate::marks::event_numbers;
use crate::reply::{Numbers, number};
use crate::writing::{end, put, put_number, refuse};
use rules::{Actor, Event, Legal, Refusal};

// A plane's number: 0 or 1, and `?` for any other.
fn put_light(text: &mut [u8], at: usize, x: f32) -> usize {
    let i = put(text, at, b' ');
    if x == 0.0 {
        put(text, i, b'0')
    } else if x == 1.0 {
        put(text, i, b'1')
    } else {
        put(text, i, b'?')
    }
}

fn put_lights(text: &mut [u8], from: usize, planes: &[f32], n: usize) -> usize {
    let mut at = from;
    for light in planes.iter().take(n) {
        at = put_light(text, at, *light);
    }
    at
}

fn put_planes(text: &mut [u8], at: usize, answer: Result<usize, Refusal>, planes: &[f32]) -> usize {
    match answer {
        Ok(n) => {
            let a = put(text, at, b'a');
            let b = put_number(text, a, n as u64);
            let c = put_lights(text, b, planes, n);
            end(text, c, planes_kept(planes, n))
        }
        Err(r) => refuse(text, at, r, planes_kept(planes, 0)),
    }
}

// `o AGENT cap W`
pub fn observe_line(values: [u64; 9], words: &[u16], text: &mut [u8], at: usize) -> Option<usize> {
    let [agent, cap, ..] = values;
    if 8192 < cap {
        return None;
    }
    let mut room = [0.5f32; 8192];
    let planes = &mut room[..cap as usize];
    let answer = arena::observe(words, agent, planes);
    Some(put_planes(text, at, answer, planes))
}

// `t W`
pub fn actor_number(actor: Actor) -> Numbers {
    match actor {
        Actor::Chance => number(1),
        Actor::Simultaneous => number(0),
    }
}

// `l AGENT W`
pub fn legal_numbers(legal: Legal) -> Numbers {
    match legal {
        Legal::AnyAction => Numbers {
            count: 4,
            all: [3, 0, 1, 2, 0, 0, 0, 0],
        },
        Legal::NoAction => number(0),
    }
}

// `z W`
pub fn key_numbers(key: Option<u64>) -> Numbers {
    match key {
        Some(key) => Numbers {
            count: 2,
            all: [1, key, 0, 0, 0, 0, 0, 0],
        },
        None => number(0),
    }
}

fn marked_numbers(event: Event) -> Numbers {
    Numbers {
        count: 8,
        all: event_numbers(event),
    }
}

// `u AGENT E W`
pub fn truncation(values: [u64; 9], words: &[u16]) -> Option<Result<Numbers, Refusal>> {
    if !is_event(&values[1..9]) {
        return None;
    }
    let event = event_of(&values[1..9]);
    Some(arena::truncation(words, values[0], event).map(marked_numbers))
}
