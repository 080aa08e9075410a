// The types that the calls of the arena share. No rule is coded here: the rules are definitions, in specs/.
#![tactic(auto)]

mod death;
mod refusal;

pub use death::DeathCause;
pub use refusal::Refusal;

#[derive(Clone, Copy, PartialEq, Eq)]
pub enum Heading {
    Up,
    Right,
    Down,
    Left,
}

// A snake's action, relative to its heading: 0, 1, 2.
#[derive(Clone, Copy, PartialEq, Eq)]
pub enum RelativeAction {
    Forward,
    TurnLeft,
    TurnRight,
}

// A row and a column, perhaps off the grid.
#[derive(Clone, Copy, PartialEq, Eq)]
pub struct Place {
    pub row: i32,
    pub col: i32,
}

// Snake of the Rust.
#[derive(Clone, Copy)]
pub struct Setting {
    pub num_snakes: u64,
    pub grid_size: i32,
    pub initial_length: u64,
    pub play_to_last: bool,
    pub win_food_lead: Option<u64>,
    pub initial_food_count: u64,
    pub max_ticks: Option<u64>,
}

// DeathCause of the Rust.
#[derive(Clone, Copy, PartialEq, Eq)]
pub enum Cause {
    Wall,
    SelfBody,
    OppBody,
    HeadOn,
}

// StepEvent of the Rust.
#[derive(Clone, Copy)]
pub struct Event {
    pub ate_food: bool,
    pub died: bool,
    pub death_cause: DeathCause,
    pub killed_opponent: bool,
    pub won: bool,
    pub lost: bool,
    pub drew: bool,
    pub survived_to_max_ticks: bool,
}

// SnakeReward of the Rust.
#[derive(Clone, Copy)]
pub struct Weights {
    pub step: f64,
    pub food: f64,
    pub loss: f64,
    pub draw: f64,
    pub kill: f64,
    pub win: f64,
    pub survival: f64,
}

// ---- answers

// What a step came to: how many words were written, whether the match is over, an event for each snake and blank ones after them.
#[derive(Clone, Copy)]
pub struct Stepped {
    pub words: usize,
    pub terminal: bool,
    pub events: [Event; 8],
}

// Whom a snake hit, and at which position of its moved body, the head being 0.
#[derive(Clone, Copy)]
pub struct Hit {
    pub snake: u8,
    pub position: u16,
}

// What a draw came to: how many words were written, and how many cells its list has.
#[derive(Clone, Copy)]
pub struct Drawn {
    pub words: usize,
    pub cells: usize,
}

#[derive(Clone, Copy, PartialEq, Eq)]
pub enum Actor {
    Chance,
    Simultaneous,
}

// Actions 0, 1 and 2, or none.
#[derive(Clone, Copy, PartialEq, Eq)]
pub enum Legal {
    AnyAction,
    NoAction,
}

#[derive(Clone, Copy)]
pub enum Space {
    Box {
        planes: usize,
        rows: usize,
        cols: usize,
        low: f32,
        high: f32,
    },
    Discrete(usize),
}
