//! What follows an instruction, and how an event ends.

/// How an event ended.
#[derive(Clone, Copy, Debug, PartialEq, Eq)]
pub enum Ended {
    /// The code ran to its end.
    Done,
    /// The code failed, with a number from 1 to 7: 1 for no turn left, 2 for calls nested too deep,
    /// 3 for division by 0, 4 for a site that does not exist, 5 for a random number with a bound
    /// below 1, 6 for a centre that is no longer of the acting type, 7 for an array index out of
    /// range.
    Failed(u8),
}

/// What follows an instruction.
#[derive(Clone, Copy)]
pub enum Leads {
    /// Another instruction.
    On,
    /// A failure.
    Fail(u8),
    /// The end of the event.
    Done,
    /// Nothing: an operand, a slot, an instruction or a function is missing. This never happens in
    /// valid code.
    Lack,
}
