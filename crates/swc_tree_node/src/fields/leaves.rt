//! Where fields stand: Names, literals and other parts that hold no subtree.
//!
//! Printed by tools/print_table.py from tools/tree.txt.

/// A name that is no identifier, as a key (ECMA-262, IdentifierName).
pub mod ident_name {
    pub const SPAN: usize = 0;

    pub const SYM: usize = 1;
}

/// A private name, without its `#` (ECMA-262, PrivateIdentifier).
pub mod private_name {
    pub const SPAN: usize = 0;

    pub const NAME: usize = 1;
}

/// A string literal: its value, and how it is written where that is known (ECMA-262, StringLiteral).
pub mod str {
    pub const SPAN: usize = 0;

    pub const VALUE: usize = 1;

    pub const RAW: usize = 2;
}

/// A boolean literal (ECMA-262, BooleanLiteral).
pub mod bool {
    pub const SPAN: usize = 0;

    pub const VALUE: usize = 1;
}

/// The literal `null` (ECMA-262, NullLiteral).
pub mod null {
    pub const SPAN: usize = 0;
}

/// A number literal, as it is written (ECMA-262, NumericLiteral).
pub mod number {
    pub const SPAN: usize = 0;

    pub const TEXT: usize = 1;
}

/// A literal of a big integer, as it is written (ECMA-262, NumericLiteral).
pub mod big_int {
    pub const SPAN: usize = 0;

    pub const TEXT: usize = 1;
}

/// A regular expression: its pattern and its flags (ECMA-262, RegularExpressionLiteral).
pub mod regex {
    pub const SPAN: usize = 0;

    pub const EXP: usize = 1;

    pub const FLAGS: usize = 2;
}

/// A text of a template: its value where it has one, and how it is written (ECMA-262, TemplateCharacters).
pub mod tpl_element {
    pub const SPAN: usize = 0;

    pub const TAIL: usize = 1;

    pub const COOKED: usize = 2;

    pub const RAW: usize = 3;
}

/// `this` (ECMA-262, PrimaryExpression).
pub mod this_expr {
    pub const SPAN: usize = 0;
}

/// `super` as it is called or read (ECMA-262, SuperCall and SuperProperty).
pub mod super_ {
    pub const SPAN: usize = 0;
}

/// `import` as it is called (ECMA-262, ImportCall).
pub mod import {
    pub const SPAN: usize = 0;
}

/// `new.target` or `import.meta` (ECMA-262, MetaProperty).
pub mod meta_prop_expr {
    pub const SPAN: usize = 0;

    pub const KIND: usize = 1;
}

/// An empty statement, or an empty member of a class (ECMA-262, EmptyStatement).
pub mod empty_stmt {
    pub const SPAN: usize = 0;
}

/// A `debugger` statement (ECMA-262, DebuggerStatement).
pub mod debugger_stmt {
    pub const SPAN: usize = 0;
}

/// A `break` statement (ECMA-262, BreakStatement).
pub mod break_stmt {
    pub const SPAN: usize = 0;

    pub const LABEL: usize = 1;
}

/// A `continue` statement (ECMA-262, ContinueStatement).
pub mod continue_stmt {
    pub const SPAN: usize = 0;

    pub const LABEL: usize = 1;
}
