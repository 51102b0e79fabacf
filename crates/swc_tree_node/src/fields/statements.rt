//! Where fields stand: Blocks, statements and declarations.
//!
//! Printed by tools/print_table.py from tools/tree.txt.

/// A declaration of a class (ECMA-262, ClassDeclaration).
pub mod class_decl {
    pub const IDENT: usize = 0;

    pub const CLASS: usize = 1;
}

/// A declaration of a function (ECMA-262, FunctionDeclaration).
pub mod fn_decl {
    pub const IDENT: usize = 0;

    pub const FUNCTION: usize = 1;
}

/// Variables that one keyword declares (ECMA-262, VariableStatement and LexicalDeclaration).
pub mod var_decl {
    pub const SPAN: usize = 0;

    pub const KIND: usize = 1;

    pub const DECLS: usize = 2;
}

/// Variables that are disposed of at the end of their scope.
pub mod using_decl {
    pub const SPAN: usize = 0;

    pub const IS_AWAIT: usize = 1;

    pub const DECLS: usize = 2;
}

/// One declared variable or pattern, with its initializer (ECMA-262, VariableDeclaration and LexicalBinding).
pub mod var_declarator {
    pub const SPAN: usize = 0;

    pub const NAME: usize = 1;

    pub const INIT: usize = 2;
}

/// A block, or the body of a function (ECMA-262, Block and FunctionBody).
pub mod block_stmt {
    pub const SPAN: usize = 0;

    pub const STMTS: usize = 1;
}

/// An expression as a statement (ECMA-262, ExpressionStatement).
pub mod expr_stmt {
    pub const SPAN: usize = 0;

    pub const EXPR: usize = 1;
}

/// A `with` statement (ECMA-262, WithStatement).
pub mod with_stmt {
    pub const SPAN: usize = 0;

    pub const OBJ: usize = 1;

    pub const BODY: usize = 2;
}

/// A return statement (ECMA-262, ReturnStatement).
pub mod return_stmt {
    pub const SPAN: usize = 0;

    pub const ARG: usize = 1;
}

/// A throw statement (ECMA-262, ThrowStatement).
pub mod throw_stmt {
    pub const SPAN: usize = 0;

    pub const ARG: usize = 1;
}

/// A statement with a label (ECMA-262, LabelledStatement).
pub mod labeled_stmt {
    pub const SPAN: usize = 0;

    pub const LABEL: usize = 1;

    pub const BODY: usize = 2;
}

/// An `if` statement (ECMA-262, IfStatement).
pub mod if_stmt {
    pub const SPAN: usize = 0;

    pub const TEST: usize = 1;

    pub const CONS: usize = 2;

    pub const ALT: usize = 3;
}

/// A `switch` statement (ECMA-262, SwitchStatement).
pub mod switch_stmt {
    pub const SPAN: usize = 0;

    pub const DISCRIMINANT: usize = 1;

    pub const CASES: usize = 2;
}

/// A case of a `switch`; the default has no test (ECMA-262, CaseClause and DefaultClause).
pub mod switch_case {
    pub const SPAN: usize = 0;

    pub const TEST: usize = 1;

    pub const CONS: usize = 2;
}

/// A `try` statement (ECMA-262, TryStatement).
pub mod try_stmt {
    pub const SPAN: usize = 0;

    pub const BLOCK: usize = 1;

    pub const HANDLER: usize = 2;

    pub const FINALIZER: usize = 3;
}

/// What catches an exception (ECMA-262, Catch).
pub mod catch_clause {
    pub const SPAN: usize = 0;

    pub const PARAM: usize = 1;

    pub const BODY: usize = 2;
}

/// A `while` statement (ECMA-262, WhileStatement).
pub mod while_stmt {
    pub const SPAN: usize = 0;

    pub const TEST: usize = 1;

    pub const BODY: usize = 2;
}

/// A `do` statement (ECMA-262, DoWhileStatement).
pub mod do_while_stmt {
    pub const SPAN: usize = 0;

    pub const BODY: usize = 1;

    pub const TEST: usize = 2;
}

/// A `for` statement (ECMA-262, ForStatement).
pub mod for_stmt {
    pub const SPAN: usize = 0;

    pub const INIT: usize = 1;

    pub const TEST: usize = 2;

    pub const UPDATE: usize = 3;

    pub const BODY: usize = 4;
}

/// A `for` statement over keys (ECMA-262, ForInOfStatement).
pub mod for_in_stmt {
    pub const SPAN: usize = 0;

    pub const LEFT: usize = 1;

    pub const RIGHT: usize = 2;

    pub const BODY: usize = 3;
}

/// A `for` statement over values (ECMA-262, ForInOfStatement).
pub mod for_of_stmt {
    pub const SPAN: usize = 0;

    pub const IS_AWAIT: usize = 1;

    pub const LEFT: usize = 2;

    pub const RIGHT: usize = 3;

    pub const BODY: usize = 4;
}
