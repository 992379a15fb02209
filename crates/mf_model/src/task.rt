use crate::{List, SharedList, Text};
use mf_fraction::Frac;
use sqlite_items::{Boxed, Items};

/// Numbers of types, the declared types of one object or parameter. Those of a group share one list.
pub type Types = SharedList<u16>;

/// A place in the binding (parameters first, then quantified variables from the outside in), or an object.
#[derive(Clone, Copy, Debug, PartialEq, Eq)]
pub enum Term {
    Variable(u8),
    Object(u16),
}

#[derive(Clone, Copy, Debug, PartialEq, Eq)]
pub enum Relation {
    Less,
    AtMost,
    Equal,
    AtLeast,
    More,
}

#[derive(Clone, Copy, Debug, PartialEq, Eq)]
pub enum Op {
    Assign,
    Increase,
    Decrease,
    ScaleUp,
    ScaleDown,
}

/// A condition over numbered predicates, functions, types and objects.
#[derive(Debug, Drop)]
pub enum Cond {
    Atom {
        predicate: u16,
        terms: List<Term>,
    },
    Same {
        left: Term,
        right: Term,
    },
    Compare {
        relation: Relation,
        left: Expr,
        right: Expr,
    },
    Not {
        part: Boxed<Cond>,
    },
    And {
        parts: Items<Cond>,
    },
    Or {
        parts: Items<Cond>,
    },
    Imply {
        left: Boxed<Cond>,
        right: Boxed<Cond>,
    },
    All {
        variables: List<Types>,
        part: Boxed<Cond>,
    },
    Any {
        variables: List<Types>,
        part: Boxed<Cond>,
    },
}

/// An arithmetic expression. `TotalTime` stands in a metric alone.
#[derive(Debug, Drop)]
pub enum Expr {
    Number(Frac),
    Function {
        function: u16,
        terms: List<Term>,
    },
    Sum {
        parts: Items<Expr>,
    },
    Difference {
        left: Boxed<Expr>,
        right: Boxed<Expr>,
    },
    Negative {
        part: Boxed<Expr>,
    },
    Product {
        parts: Items<Expr>,
    },
    Quotient {
        left: Boxed<Expr>,
        right: Boxed<Expr>,
    },
    TotalTime,
}

#[derive(Debug, Drop)]
pub enum Effect {
    Add {
        predicate: u16,
        terms: List<Term>,
    },
    Delete {
        predicate: u16,
        terms: List<Term>,
    },
    Change {
        op: Op,
        function: u16,
        terms: List<Term>,
        value: Expr,
    },
    Group {
        parts: Items<Effect>,
    },
    Each {
        variables: List<Types>,
        part: Boxed<Effect>,
    },
    When {
        condition: Cond,
        part: Boxed<Effect>,
    },
}

/// A type with the number of its parent. Type 0 is `object`, its own parent.
#[derive(Debug, Drop)]
pub struct TypeName {
    pub name: Text,
    pub parent: u16,
}

#[derive(Debug, Drop)]
pub struct Object {
    pub name: Text,
    pub types: Types,
}

/// A predicate or a function with the declared types of its parameters.
#[derive(Debug, Drop)]
pub struct Symbol {
    pub name: Text,
    pub parameters: List<Types>,
}

#[derive(Debug, Drop)]
pub struct Action {
    pub name: Text,
    pub parameters: List<Types>,
    pub condition: Cond,
    pub effect: Effect,
}

/// A ground atom: a predicate with its objects. Atoms are ordered by predicate, then by objects.
#[derive(Debug, Drop, PartialEq, Eq, PartialOrd, Ord, Hash)]
pub struct Atom {
    pub predicate: u16,
    pub objects: List<u16>,
}

/// A ground function term: a function with its objects. Terms are ordered by function, then by
/// objects.
#[derive(Debug, Drop, PartialEq, Eq, PartialOrd, Ord, Hash)]
pub struct Cell {
    pub function: u16,
    pub objects: List<u16>,
}

/// A ground function term with its value.
#[derive(Debug, Drop, PartialEq, Eq, Hash)]
pub struct Valued {
    pub cell: Cell,
    pub value: Frac,
}

#[derive(Debug, Drop)]
pub struct Metric {
    pub least: bool,
    pub value: Expr,
}

/// What a domain and a problem mean, with every name resolved to its number.
#[derive(Debug, Drop)]
pub struct TypedTask {
    pub types: List<TypeName>,
    pub objects: List<Object>,
    pub predicates: List<Symbol>,
    pub functions: List<Symbol>,
    pub actions: List<Action>,
    pub atoms: List<Atom>,
    pub values: List<Valued>,
    pub goal: Cond,
    pub metric: Option<Metric>,
}
