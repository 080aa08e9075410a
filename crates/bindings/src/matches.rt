// The calls that start a match and move it on, and those on an image alone.
ghost use Rattle.std.specs.Prelude.{◌≡◌, length};
ghost use Rattle.rules.specs.Image.{image_of};
ghost use Rattle.rules.specs.Calls.{setting_says, image_says, initial_says, step_says, struck_says};
ghost use Rattle.flat.specs.Flat.{setting_in, hits_words};
ghost use Rattle.bindings.specs.Exports.{refusal_of, FlatBody, Tells, Writes, FlatSteps};

use flat::{bit, events_bytes, hits_words, refusal_number, setting_in};
use telling::{tell_body, tell_words};

// Refusals 50 to 56.
#[unsafe(no_mangle)]
pub extern "C" fn lundaspro_flat_check_image(image: &[u16]) -> u64
    ensures { result ≡ refusal_of (image_says image.now) }
{
    match arena::check_image(image) {
        Ok(()) => 0,
        Err(r) => refusal_number(r),
    }
}

// Where the body lies, a start and a length; 0 and 0 for a malformed image or no such snake. Never refused.
#[unsafe(no_mangle)]
pub extern "C" fn lundaspro_flat_body(image: &[u16], snake: u64, part: &mut [u64; 2]) -> u64
    ensures { FlatBody image.now snake part.new result }
{
    if !arena::well_formed(image) {
        *part = [0, 0];
        return 0;
    }
    tell_body(image, snake, part)
}

// Refusals 1 to 12.
#[unsafe(no_mangle)]
pub extern "C" fn lundaspro_flat_validate(setting: &[u64; 9]) -> u64
    ensures { result ≡ refusal_of (setting_says (setting_in setting.now)) }
{
    match arena::validate(setting_in(setting)) {
        Ok(()) => 0,
        Err(r) => refusal_number(r),
    }
}

// How many words. Refusals 1 to 12, 29.
#[unsafe(no_mangle)]
pub extern "C" fn lundaspro_flat_initial_state(
    setting: &[u64; 9],
    out: &mut [u16],
    written: &mut [u64; 1],
) -> u64
    ensures { Writes image_of (initial_says (setting_in setting.now) (length out.old)) out.old out.new written.old written.new result }
{
    tell_words(arena::initial_state(setting_in(setting), out), written)
}

// The eight events; how many words, and whether the match is over. Refusals 1 to 12, 50 to 56, 21, 22, 24, 25, 29.
#[unsafe(no_mangle)]
pub extern "C" fn lundaspro_flat_step(
    setting: &[u64; 9],
    image: &[u16],
    actions: &[u64],
    out: &mut [u16],
    events: &mut [[u8; 8]; 8],
    end: &mut [u64; 2],
) -> u64
    ensures { FlatSteps (step_says (setting_in setting.now) image.now actions.now (length out.old)) out.old out.new events.old events.new end.old end.new result }
{
    match arena::step(setting_in(setting), image, actions, out) {
        Ok(made) => {
            *events = events_bytes(made.events);
            *end = [made.words as u64, bit(made.terminal)];
            0
        }
        Err(r) => refusal_number(r),
    }
}

// Whom each snake hits and at which position of its moved body, 8 and 0 for nobody. Refusals 1 to 12, 50 to 56, 21, 22, 24, 25.
#[unsafe(no_mangle)]
pub extern "C" fn lundaspro_flat_struck(
    setting: &[u64; 9],
    image: &[u16],
    actions: &[u64],
    hits: &mut [[u16; 2]; 8],
) -> u64
    ensures { Tells hits_words (struck_says (setting_in setting.now) image.now actions.now) hits.old hits.new result }
{
    match arena::struck(setting_in(setting), image, actions) {
        Ok(told) => {
            *hits = hits_words(told);
            0
        }
        Err(r) => refusal_number(r),
    }
}
