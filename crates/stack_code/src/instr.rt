//! The instructions, and the kinds of operands, slots and results.

use sat_math::Kind;

/// The kind of an operand or a slot.
#[derive(Clone, Copy)]
pub enum Operand {
    /// A number from -2^63 to 2^64 - 1.
    Number,
    /// An atom.
    Atom,
}

/// What a function returns.
#[derive(Clone, Copy)]
pub enum Answer {
    /// Nothing.
    Nothing,
    /// A number.
    Number,
    /// An atom.
    Atom,
}

/// One instruction. It pops its operands from the top of the stack and pushes its result. Its
/// arguments are, in this order: a first bit, a width, a kind of number and, for an array, its
/// length; a slot comes before them. A place is the index of an instruction in the whole code, from
/// 0 on. A function is named by its number.
#[derive(Clone, Copy)]
pub enum Instr {
    /// Pushes the number, from -2^63 to 2^64 - 1.
    PushNum(i128),
    /// Pushes the atom of this type with state 0.
    PushAtom(u16),
    /// Pushes the value of the slot.
    LoadLocal(u8),
    /// Pops an operand into the slot.
    StoreLocal(u8),
    /// Pops an operand.
    Pop,
    /// Pushes a field of the atom at site 0. Failure 6 if that atom is not of the acting type.
    LoadField(u8, u8, Kind),
    /// Pops a number into a field of the atom at site 0. Failure 6.
    StoreField(u8, u8, Kind),
    /// Pushes a field of the atom in the slot.
    LoadPart(u8, u8, u8, Kind),
    /// Pops a number into a field of the atom in the slot, unless that atom is of type 0.
    StorePart(u8, u8, u8, Kind),
    /// Pushes the atom at site 0. Failure 6.
    LoadSelf,
    /// Pops the number of a site and pushes its atom. Failure 4 if there is no such site.
    LoadSite,
    /// Pops an atom, then the number of a site, and puts the atom there. Failure 4.
    StoreSite,
    /// Pops the numbers of two sites and swaps their atoms. Failure 4.
    Swap,
    /// Pops the number of a site and pushes 1 if it is live, otherwise 0. Failure 4.
    IsLive,
    /// Pops the number of a site and pushes 1 if its atom has type 0, otherwise 0. Failure 4.
    IsEmpty,
    /// Pops a number and pushes the next random word modulo it. Failure 5 if it is below 1.
    RandCreate,
    /// Pops a number and pushes 1 if the next random word modulo it is 0, otherwise 0. Failure 5.
    RandOneIn,
    /// Pops an atom and pushes 1 if it has this type, otherwise 0.
    IsKind(u16),
    /// Pops two numbers and pushes their sum as an `Int` of 32 bits. The next four work in that type
    /// too.
    AddI,
    /// The difference.
    SubI,
    /// The product.
    MulI,
    /// The quotient, rounded toward 0. Failure 3 if the upper operand is 0.
    DivI,
    /// The remainder, with the sign of the lower operand. Failure 3 if the upper operand is 0.
    RemI,
    /// The sum as an `Unsigned` of 32 bits. The next four work in that type too.
    AddU,
    /// The difference.
    SubU,
    /// The product.
    MulU,
    /// The quotient. Failure 3.
    DivU,
    /// The remainder. Failure 3.
    RemU,
    /// Pops a number and pushes its negation as an `Int` of 32 bits.
    NegI,
    /// Pops two numbers and pushes their bitwise and. Here and in the next five, the bits of a number
    /// are those of its remainder modulo 2^64.
    And,
    /// The bitwise or.
    Or,
    /// The bitwise exclusive or.
    Xor,
    /// Pops a number and pushes the low bits of its complement, as many as the width.
    NotW(u8),
    /// Pops two numbers and shifts the lower one left by the upper one, keeping as many low bits as
    /// the width. A negative count gives 0.
    Shl(u8),
    /// Pops two numbers and shifts the lower one right by the upper one. A negative count gives 0.
    Shr,
    /// Pops a number and pushes it converted to a number type.
    Fit(Kind, u8),
    /// Pops a number and pushes 1 if it is 0, otherwise 0.
    NotB,
    /// Pops two numbers and pushes 1 if they are equal, otherwise 0.
    Eq,
    /// 1 if they differ.
    Ne,
    /// 1 if the lower operand is less.
    Lt,
    /// 1 if the lower operand is less or equal.
    Le,
    /// 1 if the lower operand is greater.
    Gt,
    /// 1 if the lower operand is greater or equal.
    Ge,
    /// Continues at the place.
    Jump(u32),
    /// Pops a number and continues at the place if it is 0.
    JumpFalse(u32),
    /// Uses up a turn. Failure 1 if none is left.
    Turn,
    /// Calls the function. Uses up a turn, then a level of depth. Failures 1 and 2.
    Call(u32),
    /// Pops an operand and returns it.
    Return,
    /// Returns nothing.
    ReturnVoid,
    /// The sum as an `Int` of 64 bits. The next four work in that type too.
    AddL,
    /// The difference.
    SubL,
    /// The product.
    MulL,
    /// The quotient, rounded toward 0. Failure 3.
    DivL,
    /// The remainder. Failure 3.
    RemL,
    /// The sum as an `Unsigned` of 64 bits. The next four work in that type too.
    AddV,
    /// The difference.
    SubV,
    /// The product.
    MulV,
    /// The quotient. Failure 3.
    DivV,
    /// The remainder. Failure 3.
    RemV,
    /// Pops a number and pushes its negation as an `Int` of 64 bits.
    NegL,
    /// Pops a number and pushes it twice.
    Dup,
    /// Pops an index and pushes that element of an array of fields of the atom at site 0. Failure 6,
    /// then failure 7 if the index is below 0 or not below the length.
    LoadFieldAt(u8, u8, Kind, u8),
    /// Pops a number, then an index, and writes the number to that element of an array of fields of
    /// the atom at site 0. Failure 6, then failure 7.
    StoreFieldAt(u8, u8, Kind, u8),
    /// As `LoadFieldAt`, for the atom in the slot. Failure 7.
    LoadPartAt(u8, u8, u8, Kind, u8),
    /// As `StoreFieldAt`, for the atom in the slot, unless that atom is of type 0. Failure 7.
    StorePartAt(u8, u8, u8, Kind, u8),
}
