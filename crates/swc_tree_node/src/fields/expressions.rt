//! Where fields stand: Expressions.
//!
//! Printed by tools/print_table.py from tools/tree.txt.

/// An array literal, with elements left out where there is none (ECMA-262, ArrayLiteral).
pub mod array_lit {
    pub const SPAN: usize = 0;

    pub const ELEMS: usize = 1;
}

/// An argument or element, after `...` where it stands for its elements (ECMA-262, ArgumentList).
pub mod expr_or_spread {
    pub const SPREAD: usize = 0;

    pub const EXPR: usize = 1;
}

/// An object literal (ECMA-262, ObjectLiteral).
pub mod object_lit {
    pub const SPAN: usize = 0;

    pub const PROPS: usize = 1;
}

/// The properties of another object (ECMA-262, PropertyDefinition).
pub mod spread_element {
    pub const DOT3_TOKEN: usize = 0;

    pub const EXPR: usize = 1;
}

/// A key and its value (ECMA-262, PropertyDefinition).
pub mod key_value_prop {
    pub const KEY: usize = 0;

    pub const VALUE: usize = 1;
}

/// An operator before its operand (ECMA-262, UnaryExpression).
pub mod unary_expr {
    pub const SPAN: usize = 0;

    pub const OP: usize = 1;

    pub const ARG: usize = 2;
}

/// An increment or decrement, before its operand or after it (ECMA-262, UpdateExpression).
pub mod update_expr {
    pub const SPAN: usize = 0;

    pub const OP: usize = 1;

    pub const PREFIX: usize = 2;

    pub const ARG: usize = 3;
}

/// Two operands and the operator between them (ECMA-262, 13.6 to 13.13).
pub mod bin_expr {
    pub const SPAN: usize = 0;

    pub const OP: usize = 1;

    pub const LEFT: usize = 2;

    pub const RIGHT: usize = 3;
}

/// An assignment (ECMA-262, AssignmentExpression).
pub mod assign_expr {
    pub const SPAN: usize = 0;

    pub const OP: usize = 1;

    pub const LEFT: usize = 2;

    pub const RIGHT: usize = 3;
}

/// A property of an object (ECMA-262, MemberExpression).
pub mod member_expr {
    pub const SPAN: usize = 0;

    pub const OBJ: usize = 1;

    pub const PROP: usize = 2;
}

/// A property of `super` (ECMA-262, SuperProperty).
pub mod super_prop_expr {
    pub const SPAN: usize = 0;

    pub const OBJ: usize = 1;

    pub const PROP: usize = 2;
}

/// A choice by a test (ECMA-262, ConditionalExpression).
pub mod cond_expr {
    pub const SPAN: usize = 0;

    pub const TEST: usize = 1;

    pub const CONS: usize = 2;

    pub const ALT: usize = 3;
}

/// A call (ECMA-262, CallExpression).
pub mod call_expr {
    pub const SPAN: usize = 0;

    pub const CALLEE: usize = 1;

    pub const ARGS: usize = 2;
}

/// `new`, with arguments or without (ECMA-262, NewExpression).
pub mod new_expr {
    pub const SPAN: usize = 0;

    pub const CALLEE: usize = 1;

    pub const ARGS: usize = 2;
}

/// Expressions one after another (ECMA-262, Expression).
pub mod seq_expr {
    pub const SPAN: usize = 0;

    pub const EXPRS: usize = 1;
}

/// An expression in parentheses (ECMA-262, ParenthesizedExpression).
pub mod paren_expr {
    pub const SPAN: usize = 0;

    pub const EXPR: usize = 1;
}

/// `await` (ECMA-262, AwaitExpression).
pub mod await_expr {
    pub const SPAN: usize = 0;

    pub const ARG: usize = 1;
}

/// `yield` (ECMA-262, YieldExpression).
pub mod yield_expr {
    pub const SPAN: usize = 0;

    pub const ARG: usize = 1;

    pub const DELEGATE: usize = 2;
}

/// A template: its expressions, and the texts round them (ECMA-262, TemplateLiteral).
pub mod tpl {
    pub const SPAN: usize = 0;

    pub const EXPRS: usize = 1;

    pub const QUASIS: usize = 2;
}

/// A template with a tag (ECMA-262, MemberExpression).
pub mod tagged_tpl {
    pub const SPAN: usize = 0;

    pub const TAG: usize = 1;

    pub const TPL: usize = 2;
}

/// A part of an optional chain; whether it begins with `?.` (ECMA-262, OptionalExpression).
pub mod opt_chain_expr {
    pub const SPAN: usize = 0;

    pub const OPTIONAL: usize = 1;

    pub const BASE: usize = 2;
}

/// A call in an optional chain (ECMA-262, OptionalChain).
pub mod opt_call {
    pub const SPAN: usize = 0;

    pub const CALLEE: usize = 1;

    pub const ARGS: usize = 2;
}
