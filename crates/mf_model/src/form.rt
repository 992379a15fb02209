use crate::{List, Op, Relation, SharedList, Span, Text, TypedList};
use sqlite_items::{Boxed, Items};

/// A word of a file, folded to lower case, with its place.
#[derive(Debug, Drop)]
pub struct Word {
    pub text: Text,
    pub span: Span,
}

/// An item of a typed list with its declared types: none stands for `object`.
#[derive(Debug, Drop)]
pub struct Typed {
    pub word: Word,
    pub types: SharedList<Word>,
}

/// The declaration of a predicate or a function.
#[derive(Debug, Drop)]
pub struct Header {
    pub word: Word,
    pub parameters: TypedList,
}

/// A condition as written.
#[derive(Debug, Drop)]
pub enum RawCond {
    Atom {
        predicate: Word,
        terms: List<Word>,
        span: Span,
    },
    Same {
        left: Word,
        right: Word,
        span: Span,
    },
    Compare {
        relation: Relation,
        left: RawExpr,
        right: RawExpr,
        span: Span,
    },
    Not {
        part: Boxed<RawCond>,
        span: Span,
    },
    And {
        parts: Items<RawCond>,
        span: Span,
    },
    Or {
        parts: Items<RawCond>,
        span: Span,
    },
    Imply {
        left: Boxed<RawCond>,
        right: Boxed<RawCond>,
        span: Span,
    },
    All {
        variables: TypedList,
        part: Boxed<RawCond>,
        span: Span,
    },
    Any {
        variables: TypedList,
        part: Boxed<RawCond>,
        span: Span,
    },
}

/// An arithmetic expression as written.
#[derive(Debug, Drop)]
pub enum RawExpr {
    Number {
        word: Word,
        span: Span,
    },
    Function {
        function: Word,
        terms: List<Word>,
        span: Span,
    },
    Sum {
        parts: Items<RawExpr>,
        span: Span,
    },
    Difference {
        left: Boxed<RawExpr>,
        right: Boxed<RawExpr>,
        span: Span,
    },
    Negative {
        part: Boxed<RawExpr>,
        span: Span,
    },
    Product {
        parts: Items<RawExpr>,
        span: Span,
    },
    Quotient {
        left: Boxed<RawExpr>,
        right: Boxed<RawExpr>,
        span: Span,
    },
    TotalTime {
        span: Span,
    },
}

/// An effect as written.
#[derive(Debug, Drop)]
pub enum RawEffect {
    Add {
        predicate: Word,
        terms: List<Word>,
        span: Span,
    },
    Delete {
        predicate: Word,
        terms: List<Word>,
        span: Span,
    },
    Change {
        op: Op,
        function: Word,
        terms: List<Word>,
        value: RawExpr,
        span: Span,
    },
    Group {
        parts: Items<RawEffect>,
        span: Span,
    },
    Each {
        variables: TypedList,
        part: Boxed<RawEffect>,
        span: Span,
    },
    When {
        condition: RawCond,
        part: Boxed<RawEffect>,
        span: Span,
    },
}

#[derive(Debug, Drop)]
pub struct RawAction {
    pub word: Word,
    pub parameters: TypedList,
    pub condition: RawCond,
    pub effect: RawEffect,
}

/// A domain file as written.
#[derive(Debug, Drop)]
pub struct Domain {
    pub name: Text,
    pub types: TypedList,
    pub constants: TypedList,
    pub predicates: List<Header>,
    pub functions: List<Header>,
    pub actions: List<RawAction>,
}

/// A start value as written: `(= (function objects) value)`.
#[derive(Debug, Drop)]
pub struct RawValue {
    pub function: Word,
    pub objects: List<Word>,
    pub value: Word,
}

#[derive(Debug, Drop)]
pub struct RawMetric {
    pub least: bool,
    pub value: RawExpr,
}

/// A problem file as written.
#[derive(Debug, Drop)]
pub struct Problem {
    pub name: Text,
    pub objects: TypedList,
    pub atoms: List<RawCond>,
    pub values: List<RawValue>,
    pub goal: RawCond,
    pub metric: Option<RawMetric>,
}

/// Which of the two files a fault is in.
#[derive(Clone, Copy, Debug, PartialEq, Eq)]
pub enum FileKind {
    DomainFile,
    ProblemFile,
}
