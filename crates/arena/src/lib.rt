// The face of the library: every public call and the types that the calls share. No call has a `requires`.
#![tactic(auto)]

pub use agent::{
    action_space, actor, legal_actions, observation_space, relative_to_absolute, truncation,
};
pub use chance::{count, draw, rank};
pub use image::{body, check_image, well_formed};
pub use rules::{
    Actor, Cause, DeathCause, Drawn, Event, Heading, Hit, Legal, Refusal, RelativeAction, Setting,
    Space, Stepped, Weights,
};
pub use score::{length_cell, reward};
pub use setting::{initial_state, validate};
pub use step::step;
pub use struck::struck;
pub use unit::outcome_of;
pub use view::observe;
