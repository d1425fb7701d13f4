//! What a run comes to.

use rw_evaluation::stop::AbortCause;
use rw_evaluation::value::Value;
use rw_items::Items;

/// The values of the globals, in their order.
#[derive(Drop)]
pub struct State {
    pub values: Items<Value>,
}

/// What a loop did in a run: how often it was entered, its turns in all, and the most in one entry.
#[derive(Clone, Copy, Debug, PartialEq, Eq)]
pub struct LoopCount {
    pub entries: u32,
    pub turns: u32,
    pub most: u32,
}

/// The end of a run. The numbers are the steps completed; in `StepLimit` it is the limit.
#[derive(Drop)]
pub enum RunEnd {
    Ended {
        state: State,
        steps: u32,
        loops: Items<LoopCount>,
    },
    TooWide(u32),
    StepLimit(u32),
    Aborted(AbortCause, u32),
}
