//! What a film keeps of an event.

use window_sites::Window;

/// An event that was made: its centre, and the window there before it.
#[derive(Clone, Copy)]
pub struct Kept {
    /// The column of the centre.
    pub x: u32,
    /// The row of the centre.
    pub y: u32,
    /// The window before the event.
    pub window: Window,
}
