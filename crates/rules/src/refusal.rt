// Why a call refuses. A fault of an image has the first word that shows it.
ghost use Rattle.std.specs.Prelude.{◌≡◌};
ghost use Rattle.rules.specs.Refusals.{code_of, word_shown};

#[derive(Clone, Copy, PartialEq, Eq)]
pub enum Refusal {
    // snakes not 2..8
    Snakes,
    // initial length 0
    LengthZero,
    // food lead 0
    LeadZero,
    // food lead set, snakes not 2
    LeadNotTwo,
    // grid above 32 (space query: or below 1)
    Grid,
    // food above g² (0 when g < 0)
    FoodArea,
    // food above 10,000: never given, since such food is above g² too
    Chain,
    // product g²(g²-1).. of min(snakes, food) factors above 2^53
    Product,
    // some body cannot be traced to its length
    Untraceable,
    // first bad cell: outside
    CellOutside,
    // first bad cell: already taken
    CellTaken,
    // food above the free cells
    FoodFree,
    // n or g differs from the setting
    OtherSetting,
    // food is due at a step
    FoodDue,
    // none is due at a draw
    NoneDue,
    // action count is not n
    ActionCount,
    // a living snake's action above 2
    Action,
    // agent not below n
    Agent,
    // outcome not below the count
    Outcome,
    // count above 2^64 - 1
    Count,
    // an output buffer shorter than its answer
    Buffer,
    // list to rank: wrong length, a cell not free, or repeated
    List,
    // a reward weight not finite
    Weight,
    // replay: unreadable line
    Line,
    // match over
    Over,
    // a book's contents not accepted
    Contents,
    // no such page
    Page,
    // above 65,535 pages
    Pages,
    // fewer words than the contents need
    CutShort(usize),
    // a content word out of range, or a living snake's length 0
    OutOfRange(usize),
    // a start out of line
    Start(usize),
    // total length wrong
    Total(usize),
    // a cell beyond the grid
    CellBeyond(usize),
    // a cell twice in a body
    CellTwice(usize),
    // food not ascending
    FoodOrder(usize),
    // unit number: count not 1 to 2^53
    UnitCount,
    // unit number: not at least 0 and below 1
    UnitNumber,
}

impl Refusal {
    // The number that callers of other languages and the replay's lines know it by.
    pub fn number(self) -> u8
        ensures { result ≡ code_of self }
    {
        match self {
            Refusal::Snakes => 1,
            Refusal::LengthZero => 2,
            Refusal::LeadZero => 3,
            Refusal::LeadNotTwo => 4,
            Refusal::Grid => 5,
            Refusal::FoodArea => 6,
            Refusal::Chain => 7,
            Refusal::Product => 8,
            Refusal::Untraceable => 9,
            Refusal::CellOutside => 10,
            Refusal::CellTaken => 11,
            Refusal::FoodFree => 12,
            Refusal::OtherSetting => 21,
            Refusal::FoodDue => 22,
            Refusal::NoneDue => 23,
            Refusal::ActionCount => 24,
            Refusal::Action => 25,
            Refusal::Agent => 26,
            Refusal::Outcome => 27,
            Refusal::Count => 28,
            Refusal::Buffer => 29,
            Refusal::List => 30,
            Refusal::Weight => 31,
            Refusal::Line => 32,
            Refusal::Over => 33,
            Refusal::Contents => 40,
            Refusal::Page => 41,
            Refusal::Pages => 42,
            Refusal::CutShort(_) => 50,
            Refusal::OutOfRange(_) => 51,
            Refusal::Start(_) => 52,
            Refusal::Total(_) => 53,
            Refusal::CellBeyond(_) => 54,
            Refusal::CellTwice(_) => 55,
            Refusal::FoodOrder(_) => 56,
            Refusal::UnitCount => 80,
            Refusal::UnitNumber => 81,
        }
    }

    // The word of an image that shows a fault; 0 for every other refusal.
    pub fn word(self) -> usize
        ensures { result ≡ word_shown self }
    {
        match self {
            Refusal::CutShort(word) => word,
            Refusal::OutOfRange(word) => word,
            Refusal::Start(word) => word,
            Refusal::Total(word) => word,
            Refusal::CellBeyond(word) => word,
            Refusal::CellTwice(word) => word,
            Refusal::FoodOrder(word) => word,
            _ => 0,
        }
    }
}
