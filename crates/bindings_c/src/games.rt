// The calls on a match as a value: nineteen numbers beside the setting, all 0 before the first move.
ghost use Rattle.std.specs.Prelude.{Ok};
ghost use Rattle.standing.specs.Calls.{move_says};
ghost use Rattle.standing.specs.Standing.{places_of};
ghost use Rattle.flat.specs.Flat.{flag_in, setting_in};
ghost use Rattle.flat.specs.Games.{events_in, match_in};
ghost use Rattle.bindings.specs.Exports.{whole, Tells, FlatMoves};

// After a step: its end, the image that it wrote, its events, which are marked where max_ticks ends the match, and the match, which takes the move.
// Refusal 33.
#[unsafe(no_mangle)]
pub extern "C" fn lundaspro_flat_take_move(
    setting: &[u64; 9],
    terminal: u64,
    image: &[u16],
    events: &mut [[u8; 8]; 8],
    game: &mut [u64; 19],
) -> u64
    ensures { FlatMoves (move_says (match_in (setting_in setting.now) game.old) (flag_in terminal) image.now (events_in events.old)) events.old events.new game.old game.new result }
{
    bindings::lundaspro_flat_take_move(setting, terminal, image, events, game)
}

// The place of each snake, 0 from the setting's number of snakes on. Never refused.
#[unsafe(no_mangle)]
pub extern "C" fn lundaspro_flat_places(
    setting: &[u64; 9],
    game: &[u64; 19],
    places: &mut [u64; 8],
) -> u64
    ensures { Tells whole (Ok (places_of (match_in (setting_in setting.now) game.now))) places.old places.new result }
{
    bindings::lundaspro_flat_places(setting, game, places)
}
