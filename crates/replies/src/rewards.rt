// The reward, whose floats stand in a line as bits.
use crate::fields::{Fields, event_of, is_event};
use crate::reply::{Numbers, number};
use rules::{Refusal, Weights};

// The float of that pattern. A NaN's pattern has none: it is read as an infinity, which the reward refuses by 31 too, and the outcome of a unit
// number by 81.
pub fn float_of(bits: u64) -> f64 {
    if 9218868437227405312 < bits % 9223372036854775808 {
        1.0 / 0.0
    } else {
        f64::from_bits(bits)
    }
}

// The pattern of a float that is no NaN, as no sum of finite weights is.
fn bits_of(x: f64) -> u64 {
    if x != x { 0 } else { f64::to_bits(x) }
}

fn weights_in(w: &[u64; 15]) -> Weights {
    Weights {
        step: float_of(w[0]),
        food: float_of(w[1]),
        loss: float_of(w[2]),
        draw: float_of(w[3]),
        kill: float_of(w[4]),
        win: float_of(w[5]),
        survival: float_of(w[6]),
    }
}

// `w B1..B7 E`
pub fn reward(s: &[u8]) -> Option<Result<Numbers, Refusal>> {
    let mut values = [0u64; 15];
    Fields::of(s).last_numbers(&mut values)?;
    if !is_event(&values[7..15]) {
        return None;
    }
    let event = event_of(&values[7..15]);
    match arena::reward(weights_in(&values), event) {
        Ok(x) => Some(Ok(number(bits_of(x)))),
        Err(r) => Some(Err(r)),
    }
}
