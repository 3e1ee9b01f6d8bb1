// What a call turns away, and where.
ghost use Rattle.std.specs.Prelude.{◌≡◌, Some};
ghost use Rattle.tasks.specs.Refusals.{number as number_of, layer as layer_of, word as word_of, line};

use std::fmt;

// Why a call is refused: each cause has a number, which `as u8` gives too, and belongs to one layer.
#[derive(Clone, Copy, PartialEq, Eq, Debug)]
pub enum Cause {
    // file: under 4 or over 65,536 bytes
    FileLength = 1,
    // file: the layout is not 1
    Layout = 2,
    // file: over 32 variables or over 512 actions
    Counts = 3,
    // file: a spare bit is set
    SpareBit = 4,
    // file: it ends inside a record
    CutShort = 5,
    // file: a value that its variable does not have, or a goal value without a goal
    ValueRange = 6,
    // file: a variable that the file does not have, or not in ascending order
    VariableOrder = 7,
    // file: bytes behind the last record
    LeftOver = 9,
    // floor: a side is not 1 to 8
    FloorSides = 10,
    // floor: over 31 points
    PointCount = 11,
    // floor: not one price for each cell
    PriceCount = 12,
    // floor: the start or a point is outside or blocked
    CellClosed = 13,
    // pile: 128 steps stand
    PileFull = 20,
    // pile: a number that the step names is not live
    NotLive = 21,
    // pile: the conditions of the step fail
    MergeUnfit = 22,
    GeneraliseUnfit = 23,
    VariableUnfit = 24,
    // pile: the list of an action step is over 8, or holds the action or one that is not live
    ListUnfit = 25,
    // pile: the conditions of the step fail
    ActionUnfit = 26,
    AbstractUnfit = 27,
    // pile: no step stands that could be taken back
    NoStep = 28,
    // plan: the buffers are unequal or over 65,535 entries, or the work table has not 64
    BufferSizes = 30,
    // plan: an action cannot run
    CannotRun = 31,
    // plan: a goal is missed at the end
    GoalMissed = 32,
    // plan: the extended list is longer than a buffer
    BufferShort = 33,
    // program: the plan's file is of odd length or too long
    PlanFile = 36,
}

impl Cause {
    pub fn number(self) -> u8
        ensures { result ≡ number_of self }
    {
        self as u8
    }

    // The word of the layer that refuses.
    pub fn layer(self) -> &'static str
        ensures { result.now ≡ word_of (layer_of self) }
    {
        match self {
            Cause::FileLength
            | Cause::Layout
            | Cause::Counts
            | Cause::SpareBit
            | Cause::CutShort
            | Cause::ValueRange
            | Cause::VariableOrder
            | Cause::LeftOver => "file",
            Cause::FloorSides | Cause::PointCount | Cause::PriceCount | Cause::CellClosed =>
                "floor",
            Cause::PileFull
            | Cause::NotLive
            | Cause::MergeUnfit
            | Cause::GeneraliseUnfit
            | Cause::VariableUnfit
            | Cause::ListUnfit
            | Cause::ActionUnfit
            | Cause::AbstractUnfit
            | Cause::NoStep => "pile",
            Cause::BufferSizes | Cause::CannotRun | Cause::GoalMissed | Cause::BufferShort =>
                "plan",
            Cause::PlanFile => "program",
        }
    }

    // The refusal for this cause at a place.
    pub fn at(self, place: usize) -> Refusal
        ensures { result ≡ record { cause = self; place = place } }
    {
        Refusal { cause: self, place }
    }
}

// A cause, and the place that it has: a byte, an index, a position or a variable; 0 where there is none to name.
#[derive(Clone, Copy, PartialEq, Eq, Debug)]
pub struct Refusal {
    pub cause: Cause,
    pub place: usize,
}

impl fmt::Display for Refusal {
    ghost output = { λ x. Some (line x.cause x.place) };

    fn fmt<W: fmt::Write>(&self, f: &mut fmt::Formatter<W>) -> fmt::Result {
        let number = self.cause.number();
        let layer = self.cause.layer();
        let place = self.place;
        write!(f, "refused {number} {layer} {place}")
    }
}
