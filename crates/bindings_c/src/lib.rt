// The calls for programs in C and in whatever calls as C does: each function of `bindings` under its own name, with its clauses. `clients/c/lundaspro.h`
// declares them.
#![tactic(auto)]

mod books;
mod chances;
mod games;
mod matches;
mod views;

pub use books::{lundaspro_flat_page, lundaspro_flat_write_book};
pub use chances::{
    lundaspro_flat_count, lundaspro_flat_draw, lundaspro_flat_outcome_of, lundaspro_flat_rank,
};
pub use games::{lundaspro_flat_places, lundaspro_flat_take_move};
pub use matches::{
    lundaspro_flat_body, lundaspro_flat_check_image, lundaspro_flat_initial_state,
    lundaspro_flat_step, lundaspro_flat_struck, lundaspro_flat_validate,
};
pub use views::{
    lundaspro_flat_action_space, lundaspro_flat_actor, lundaspro_flat_legal_actions,
    lundaspro_flat_length_cell, lundaspro_flat_observation_space, lundaspro_flat_observe,
    lundaspro_flat_relative_to_absolute, lundaspro_flat_reward, lundaspro_flat_truncation,
};
