//! Which bits of an atom's state the data members of a class have.
//!
//! Members lie one after another in order of declaration, from bit 0. A number takes the bits of
//! its type, an array its length times as many, a quark the bits of its own members, and an
//! `EventWindow` or a `Random` none.
#![tactic(auto)]

mod fault;
mod law;
mod rounds;
mod table;

pub use fault::LayoutFault;
pub use law::one_width;
pub use rounds::layout;
pub use table::Layout;
