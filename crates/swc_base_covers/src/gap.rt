//! What keeps a program from what is promised.

/// What is asked of a program and does not hold. Of several the first in this order is told.
#[derive(Clone, Copy, Debug, PartialEq, Eq)]
pub enum Cause {
    /// Declarations of types stand in it, which the passes refuse.
    Types,
    /// An identifier has a context: the program is not as a parser gives it.
    Context,
    /// It can't be written down as JavaScript.
    Written,
    /// Classes are to keep their names.
    Classes,
    /// A direct `eval` or a `with` may read names as the program runs, and that is not ignored (ECMA-262, 13.3.6.1 and 14.11).
    Reads,
    /// Of a script: a plain function stands in a block, catch body or case list of sloppy code (B.3.2).
    Function,
    /// Of a script: a label names a function declaration (14.13.1, B.3.1).
    Label,
    /// Of a script: the program declares `undefined`, `NaN` or `Infinity` (19.1).
    Global,
    /// Of a script: a function has two parameters of one name (15.1.1).
    Repeated,
    /// What an export list exports is not declared (16.2.3.1).
    Export,
    /// A scope that declares a name lexically declares it twice (14.2.1, 14.12.1, 15.2.1, 16.1.1, 16.2.1.1).
    Twice,
    /// A `var` passes a scope that declares its name lexically (14.2.1, 14.7.4.1, 14.15.1).
    Variable,
    /// Two parameters of strict code, of an arrow or of a method have one name (15.1.1, 15.3.1, 15.5.1).
    Parameter,
    /// `eval` or `arguments` is declared (13.1.1).
    Eval,
}

/// What keeps a program from what is promised, and where.
#[derive(Debug, Drop)]
pub struct Gap {
    pub cause: Cause,
    /// Where it shows: numbers of children, from the root, to the first declaration of a type, identifier with a context, reader, function
    /// in a block, label before a function, or name `eval` or `arguments` that is bound; none where it shows at no node of its own.
    pub path: Option<Vec<usize>>,
}
