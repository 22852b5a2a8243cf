//! Trees as the parser gives them.

use crate::op::{PairOp, PrefixOp};
use crate::type_ref::{TypeRef, Width};
use feast_base::{Name, Place};
use std::rc::Rc;

/// A name, or the name of a type, and its place.
#[derive(Drop)]
pub struct Word {
    /// Its bytes.
    pub name: Name,
    /// The place of its first byte.
    pub place: Place,
}

/// An element file.
#[derive(Drop)]
pub struct File {
    /// What it consists of, in order.
    pub items: Vec<Item>,
}

/// A part of a file.
pub enum Item {
    /// `ulam`, the version of the language that the file is written in.
    Ulam { number: u32 },
    /// `use`, which names a class of another file.
    Uses { word: Word },
    /// An element or a quark.
    Class { class: Class },
}

// By hand, so that callers drop by a call.
impl Drop for Item {
    fn drop(self) {
        match self {
            Item::Ulam { number } => {}
            Item::Uses { word } => {}
            Item::Class { class } => {}
        }
    }
}

/// An element or a quark.
#[derive(Drop)]
pub struct Class {
    /// Whether it is a quark.
    pub quark: bool,
    /// Its name.
    pub word: Word,
    /// What it declares, in order. Classes may share a declaration.
    pub members: Vec<Rc<Member>>,
}

/// A declaration in a class.
pub enum Member {
    /// Another name of a type.
    Typedef {
        of: TypeRef,
        word: Word,
    },
    /// A constant.
    Constant {
        of: TypeRef,
        word: Word,
        value: Const,
    },
    /// A data member; with a length it is an array.
    Field {
        of: TypeRef,
        word: Word,
        length: Option<Width>,
    },
    /// A function.
    Function {
        of: TypeRef,
        word: Word,
        params: Vec<Param>,
        body: Vec<Statement>,
    },
}

// By hand, so that callers drop by a call.
impl Drop for Member {
    fn drop(self) {
        match self {
            Member::Typedef { of, word } => {}
            Member::Constant { of, word, value } => {}
            Member::Field { of, word, length } => {}
            Member::Function {
                of,
                word,
                params,
                body,
            } => {}
        }
    }
}

/// A parameter of a function.
#[derive(Drop)]
pub struct Param {
    /// Its type.
    pub of: TypeRef,
    /// Its name.
    pub word: Word,
}

/// The value that a constant is declared with.
pub enum Const {
    /// A number, with `minus` if `-` is before it and `unsigned` if `u` is after it.
    Number {
        minus: bool,
        value: u32,
        unsigned: bool,
    },
    /// `true` or `false`.
    Truth {
        value: bool,
    },
    /// An earlier constant.
    Named {
        word: Word,
    },
}

// By hand, so that callers drop by a call.
impl Drop for Const {
    fn drop(self) {
        match self {
            Const::Number {
                minus,
                value,
                unsigned,
            } => {}
            Const::Truth { value } => {}
            Const::Named { word } => {}
        }
    }
}

/// A statement.
pub enum Statement {
    /// Statements in braces.
    Block {
        body: Vec<Statement>,
    },
    /// `;` alone.
    Nothing,
    /// `if`, with the part after `else` if there is one.
    If {
        cond: Cond,
        yes: Box<Statement>,
        no: Option<Box<Statement>>,
    },
    /// `while`.
    While {
        cond: Expr,
        body: Box<Statement>,
    },
    /// `for`. Where the parser gives it, `first` is a Declare, an Assign, a Count or a Call, and
    /// `step` an Assign, a Count or a Call.
    For {
        first: Option<Box<Statement>>,
        cond: Option<Expr>,
        step: Option<Box<Statement>>,
        body: Box<Statement>,
    },
    /// `return`, by its place.
    Return {
        place: Place,
        value: Option<Expr>,
    },
    /// `break`, by its place.
    Break {
        place: Place,
    },
    /// `continue`, by its place.
    Continue {
        place: Place,
    },
    /// A local.
    Declare {
        of: TypeRef,
        word: Word,
        value: Option<Expr>,
    },
    /// `=` if `op` is `None`, or an operator with `=` after it.
    Assign {
        left: Left,
        op: Option<PairOp>,
        value: Expr,
    },
    /// `++` if `up`, or `--`, on either side.
    Count {
        left: Left,
        up: bool,
    },
    /// A call whose value is dropped.
    Call {
        call: Call,
    },
}

// By hand, so that callers drop by a call.
impl Drop for Statement {
    fn drop(self) {
        match self {
            Statement::Block { body } => {}
            Statement::Nothing => {}
            Statement::If { cond, yes, no } => {}
            Statement::While { cond, body } => {}
            Statement::For {
                first,
                cond,
                step,
                body,
            } => {}
            Statement::Return { place, value } => {}
            Statement::Break { place } => {}
            Statement::Continue { place } => {}
            Statement::Declare { of, word, value } => {}
            Statement::Assign { left, op, value } => {}
            Statement::Count { left, up } => {}
            Statement::Call { call } => {}
        }
    }
}

/// What an `if` asks.
pub enum Cond {
    /// A name `as` a class: whether it holds an atom of the class, as which it is then seen.
    Seen { word: Word, class: Word },
    /// Whether an expression is true.
    Test { value: Expr },
}

// By hand, so that callers drop by a call.
impl Drop for Cond {
    fn drop(self) {
        match self {
            Cond::Seen { word, class } => {}
            Cond::Test { value } => {}
        }
    }
}

/// Names with dots between.
#[derive(Drop)]
pub struct Path {
    /// The place of `self`, if the path begins with it.
    pub own: Option<Place>,
    /// The names. There is at least one if the path doesn't begin with `self`.
    pub words: Vec<Word>,
}

/// What is assigned to.
pub struct Left {
    /// Its names.
    pub path: Path,
    /// The index in square brackets.
    pub index: Option<Box<Expr>>,
}

// By hand, so that callers drop by a call.
impl Drop for Left {
    fn drop(self) {
        let Left { path, index } = self;
    }
}

/// A call.
#[cycle(raw)]
#[derive(Drop)]
pub struct Call {
    /// The names before the bracket.
    pub path: Path,
    /// The arguments.
    pub args: Vec<Expr>,
}

/// An expression. `place` is that of the operator in `Prefix`, `Pair` and `Is`, and else that of
/// the first token.
#[cycle(raw)]
pub enum Expr {
    /// A number, with `unsigned` if `u` is after it.
    Number {
        value: u32,
        unsigned: bool,
        place: Place,
    },
    /// `true` or `false`.
    Truth {
        value: bool,
        place: Place,
    },
    /// Names with dots between.
    Path {
        path: Path,
    },
    /// A call.
    Call {
        call: Call,
    },
    /// An element of an array.
    Index {
        path: Path,
        at: Box<Expr>,
    },
    /// A new atom of a class.
    Instance {
        class: Word,
    },
    /// An expression in brackets.
    Group {
        inner: Box<Expr>,
        place: Place,
    },
    /// A type in brackets, and the expression that is converted to it.
    Cast {
        to: TypeRef,
        value: Box<Expr>,
        place: Place,
    },
    /// An operator and its operand.
    Prefix {
        op: PrefixOp,
        value: Box<Expr>,
        place: Place,
    },
    /// An operator between its operands.
    Pair {
        op: PairOp,
        left: Box<Expr>,
        right: Box<Expr>,
        place: Place,
    },
    /// Whether an atom is of a class.
    Is {
        value: Box<Expr>,
        class: Word,
        place: Place,
    },
}

// By hand, so that callers drop by a call.
impl Drop for Expr {
    fn drop(self) {
        match self {
            Expr::Number {
                value,
                unsigned,
                place,
            } => {}
            Expr::Truth { value, place } => {}
            Expr::Path { path } => {}
            Expr::Call { call } => {}
            Expr::Index { path, at } => {}
            Expr::Instance { class } => {}
            Expr::Group { inner, place } => {}
            Expr::Cast { to, value, place } => {}
            Expr::Prefix { op, value, place } => {}
            Expr::Pair {
                op,
                left,
                right,
                place,
            } => {}
            Expr::Is {
                value,
                class,
                place,
            } => {}
        }
    }
}
