//! Trees whose names are looked up.
//!
//! Typedefs and constants are gone. Classes are numbered from 0 over all files in order, data
//! members and functions each from 0 in their class. A function's slots hold its parameters and
//! then its locals in order of declaration, no slot twice.

use crate::op::{PairOp, PrefixOp};
use crate::raw::Word;
use feast_base::Place;
use sat_math::NumType;

/// All classes of all files, in order.
#[derive(Drop)]
pub struct Program {
    /// The classes.
    pub classes: Vec<Class>,
}

/// An element or a quark.
#[derive(Drop)]
pub struct Class {
    /// Whether it is a quark.
    pub quark: bool,
    /// Its name.
    pub word: Word,
    /// Its data members and functions, in order.
    pub members: Vec<Member>,
}

/// A data member or a function of a class.
pub enum Member {
    /// A data member. `length` is that of an array, or 0 if it is not an array.
    Field {
        of: Named,
        word: Word,
        length: u32,
    },
    /// A function.
    Function {
        of: Named,
        word: Word,
        params: Vec<Param>,
        body: Vec<Statement>,
    },
}

// By hand, so that callers drop by a call.
impl Drop for Member {
    fn drop(self) {
        match self {
            Member::Field { of, word, length } => {}
            Member::Function {
                of,
                word,
                params,
                body,
            } => {}
        }
    }
}

/// A parameter of a function.
#[derive(Drop)]
pub struct Param {
    /// Its type.
    pub of: Named,
    /// Its name.
    pub word: Word,
}

/// A type.
#[derive(Clone, Copy, PartialEq, Eq)]
pub enum Ty {
    /// A type of numbers.
    Num { num: NumType },
    /// An atom of any element, or none.
    Atom,
    /// No atom.
    Empty,
    /// `Void`: no value.
    Nothing,
    /// `EventWindow`.
    Window,
    /// `Random`.
    Random,
    /// A class, by its number.
    Class { class: u32 },
}

/// A type, by the place of its name.
#[derive(Clone, Copy)]
pub struct Named {
    /// The type.
    pub ty: Ty,
    /// The place of its name.
    pub place: Place,
}

/// What names with dots between mean, name by name.
#[derive(Drop)]
pub struct Path {
    /// The place of the first one.
    pub place: Place,
    /// What each means.
    pub steps: Vec<Step>,
}

/// What one name of a path means.
#[derive(Clone, Copy)]
pub enum Step {
    /// `self`.
    Own,
    /// A local or parameter.
    Local { slot: u32 },
    /// A data member of a class.
    Member { class: u32, member: u32 },
    /// A function of a class.
    Function { class: u32, function: u32 },
    /// A constant.
    Constant { num: NumType, value: i128 },
    /// A function of `EventWindow` or `Random`.
    Built { call: Built },
}

/// A built-in function.
#[derive(Clone, Copy)]
pub enum Built {
    /// `swap` of an `EventWindow`.
    Swap,
    /// `isLive` of an `EventWindow`.
    IsLive,
    /// `isEmpty` of an `EventWindow`.
    IsEmpty,
    /// `create` of a `Random`.
    Create,
    /// `oneIn` of a `Random`.
    OneIn,
}

/// A statement.
pub enum Statement {
    /// Statements in braces.
    Block {
        body: Vec<Statement>,
    },
    /// `;` alone.
    Nothing,
    /// `if`, with the part after `else` if there is one.
    If {
        cond: Cond,
        yes: Box<Statement>,
        no: Option<Box<Statement>>,
    },
    /// `while`.
    While {
        cond: Expr,
        body: Box<Statement>,
    },
    /// `for`.
    For {
        first: Option<Box<Statement>>,
        cond: Option<Expr>,
        step: Option<Box<Statement>>,
        body: Box<Statement>,
    },
    /// `return`, by its place.
    Return {
        place: Place,
        value: Option<Expr>,
    },
    /// `break`, by its place.
    Break {
        place: Place,
    },
    /// `continue`, by its place.
    Continue {
        place: Place,
    },
    /// A local with its slot, by the place of its name.
    Declare {
        of: Named,
        slot: u32,
        place: Place,
        value: Option<Expr>,
    },
    /// `=` if `op` is `None`, or an operator with `=` after it.
    Assign {
        left: Left,
        op: Option<PairOp>,
        value: Expr,
    },
    /// `++` if `up`, or `--`, on either side.
    Count {
        left: Left,
        up: bool,
    },
    /// A call whose value is dropped.
    Call {
        call: Call,
    },
}

// By hand, so that callers drop by a call.
impl Drop for Statement {
    fn drop(self) {
        match self {
            Statement::Block { body } => {}
            Statement::Nothing => {}
            Statement::If { cond, yes, no } => {}
            Statement::While { cond, body } => {}
            Statement::For {
                first,
                cond,
                step,
                body,
            } => {}
            Statement::Return { place, value } => {}
            Statement::Break { place } => {}
            Statement::Continue { place } => {}
            Statement::Declare {
                of,
                slot,
                place,
                value,
            } => {}
            Statement::Assign { left, op, value } => {}
            Statement::Count { left, up } => {}
            Statement::Call { call } => {}
        }
    }
}

/// What an `if` asks.
pub enum Cond {
    /// A name `as` a class: whether it holds an atom of the class, as which it is then seen. The
    /// path has one step.
    Seen { path: Path, class: Named },
    /// Whether an expression is true.
    Test { value: Expr },
}

// By hand, so that callers drop by a call.
impl Drop for Cond {
    fn drop(self) {
        match self {
            Cond::Seen { path, class } => {}
            Cond::Test { value } => {}
        }
    }
}

/// What is assigned to.
pub struct Left {
    /// Its names.
    pub path: Path,
    /// The index in square brackets.
    pub index: Option<Box<Expr>>,
}

// By hand, so that callers drop by a call.
impl Drop for Left {
    fn drop(self) {
        let Left { path, index } = self;
    }
}

/// A call.
#[cycle(resolved)]
#[derive(Drop)]
pub struct Call {
    /// The names before the bracket.
    pub path: Path,
    /// The arguments.
    pub args: Vec<Expr>,
}

/// An expression. `place` is that of the operator in `Prefix`, `Pair` and `Is`, and else that of
/// the first token.
#[cycle(resolved)]
pub enum Expr {
    /// A number, with `unsigned` if `u` is after it.
    Number {
        value: u32,
        unsigned: bool,
        place: Place,
    },
    /// `true` or `false`.
    Truth {
        value: bool,
        place: Place,
    },
    /// Names with dots between.
    Path {
        path: Path,
    },
    /// A call.
    Call {
        call: Call,
    },
    /// An element of an array.
    Index {
        path: Path,
        at: Box<Expr>,
    },
    /// A new atom of a class.
    Instance {
        class: Named,
    },
    /// An expression in brackets.
    Group {
        inner: Box<Expr>,
        place: Place,
    },
    /// A type in brackets, and the expression that is converted to it.
    Cast {
        to: Named,
        value: Box<Expr>,
        place: Place,
    },
    /// An operator and its operand.
    Prefix {
        op: PrefixOp,
        value: Box<Expr>,
        place: Place,
    },
    /// An operator between its operands.
    Pair {
        op: PairOp,
        left: Box<Expr>,
        right: Box<Expr>,
        place: Place,
    },
    /// Whether an atom is of a class.
    Is {
        value: Box<Expr>,
        class: Named,
        place: Place,
    },
}

// By hand, so that callers drop by a call.
impl Drop for Expr {
    fn drop(self) {
        match self {
            Expr::Number {
                value,
                unsigned,
                place,
            } => {}
            Expr::Truth { value, place } => {}
            Expr::Path { path } => {}
            Expr::Call { call } => {}
            Expr::Index { path, at } => {}
            Expr::Instance { class } => {}
            Expr::Group { inner, place } => {}
            Expr::Cast { to, value, place } => {}
            Expr::Prefix { op, value, place } => {}
            Expr::Pair {
                op,
                left,
                right,
                place,
            } => {}
            Expr::Is {
                value,
                class,
                place,
            } => {}
        }
    }
}
