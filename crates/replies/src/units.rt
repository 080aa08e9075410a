// The outcome of a unit number, which stands in a line as bits. A NaN's pattern is read as an infinity, which is refused as a NaN is.
use crate::fields::Fields;
use crate::reply::{Numbers, number};
use crate::rewards::float_of;
use rules::Refusal;

// `n COUNT BITS`
pub fn outcome_of(s: &[u8]) -> Option<Result<Numbers, Refusal>> {
    let mut values = [0u64; 2];
    Fields::of(s).last_numbers(&mut values)?;
    let [count, bits] = values;
    Some(arena::outcome_of(count, float_of(bits)).map(number))
}
