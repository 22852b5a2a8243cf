//! Places in files, and refusals.

/// A place in one of the files that a call was given.
#[derive(Clone, Copy, Debug, PartialEq, Eq)]
pub struct Place {
    /// The number of the file, from 0 in the order of the files.
    pub file: u32,
    /// The line, from 1. A line ends after each LF.
    pub line: u32,
    /// The byte in the line, from 1.
    pub column: u32,
}

/// Why an input was refused.
#[derive(Clone, Copy, Debug, PartialEq, Eq)]
pub struct Refusal {
    /// The number of the cause, as the refusal line shows it after `E`.
    pub code: u8,
    /// Where the cause is.
    pub place: Place,
    /// The number that the text of the cause shows, or 0 if it shows none.
    pub value: u64,
}
