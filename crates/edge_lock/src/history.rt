//! What the history of one edge is made of. Contracts use these types as lists and records; no
//! running code makes a value of them.
use std::collections::LinkedList;
use std::marker::Brand;

/// One read or write of a register in a hold: the register's number and the value.
pub enum Access {
    /// The value was read from the register.
    Read(u32, u64),
    /// The value was written to the register.
    Write(u32, u64),
}

/// One stay of an end on the edge, from the exchange that got it to the store that gave it back.
pub struct Hold {
    /// 0 for the lower tile of the edge, 1 for the higher.
    pub end: u64,
    /// The attempt of that end's tile that got the edge.
    pub attempt: u64,
    /// What was read and written, in order.
    pub accesses: LinkedList<Access>,
    /// Whether the end still has the edge.
    pub is_open: bool,
}

/// A try that found the edge taken by the other end.
pub struct Refusal {
    /// The attempt that was refused.
    pub attempt: u64,
    /// The attempt of the other end's tile that had the edge.
    pub holder: u64,
}

/// A read or write of a register in plain memory, as a proof says it to the history. No code has it.
pub trait Said {
    ghost use Rattle.edge_lock.specs.declared.history.Access.{Access};

    ghost access: { Access };
}

impl Said for Brand {
    ghost use Rattle.edge_lock.specs.declared.history.Access.TheVariants.{Read};

    ghost access = { Read 0 0 };
}
