//! Where fields stand: Functions, classes and their members.
//!
//! Printed by tools/print_table.py from tools/tree.txt.

/// The parameters and the body of a function (ECMA-262, 15.2).
pub mod function {
    pub const SPAN: usize = 0;

    pub const PARAMS: usize = 1;

    pub const BODY: usize = 2;

    pub const IS_GENERATOR: usize = 3;

    pub const IS_ASYNC: usize = 4;
}

/// A parameter of a function (ECMA-262, FormalParameter).
pub mod param {
    pub const SPAN: usize = 0;

    pub const PAT: usize = 1;
}

/// A function expression (ECMA-262, FunctionExpression).
pub mod fn_expr {
    pub const IDENT: usize = 0;

    pub const FUNCTION: usize = 1;
}

/// An arrow function (ECMA-262, ArrowFunction).
pub mod arrow_expr {
    pub const SPAN: usize = 0;

    pub const PARAMS: usize = 1;

    pub const BODY: usize = 2;

    pub const IS_ASYNC: usize = 3;
}

/// The heritage and the members of a class (ECMA-262, ClassTail).
pub mod class {
    pub const SPAN: usize = 0;

    pub const SUPER_CLASS: usize = 1;

    pub const BODY: usize = 2;
}

/// A class expression (ECMA-262, ClassExpression).
pub mod class_expr {
    pub const IDENT: usize = 0;

    pub const CLASS: usize = 1;
}

/// The constructor of a class (ECMA-262, MethodDefinition).
pub mod constructor {
    pub const SPAN: usize = 0;

    pub const KEY: usize = 1;

    pub const PARAMS: usize = 2;

    pub const BODY: usize = 3;
}

/// A method of a class (ECMA-262, MethodDefinition).
pub mod class_method {
    pub const SPAN: usize = 0;

    pub const KEY: usize = 1;

    pub const FUNCTION: usize = 2;

    pub const KIND: usize = 3;

    pub const IS_STATIC: usize = 4;
}

/// A private method of a class (ECMA-262, MethodDefinition).
pub mod private_method {
    pub const SPAN: usize = 0;

    pub const KEY: usize = 1;

    pub const FUNCTION: usize = 2;

    pub const KIND: usize = 3;

    pub const IS_STATIC: usize = 4;
}

/// A field of a class (ECMA-262, FieldDefinition).
pub mod class_prop {
    pub const SPAN: usize = 0;

    pub const KEY: usize = 1;

    pub const VALUE: usize = 2;

    pub const IS_STATIC: usize = 3;
}

/// A private field of a class (ECMA-262, FieldDefinition).
pub mod private_prop {
    pub const SPAN: usize = 0;

    pub const KEY: usize = 1;

    pub const VALUE: usize = 2;

    pub const IS_STATIC: usize = 3;
}

/// A static block of a class (ECMA-262, ClassStaticBlock).
pub mod static_block {
    pub const SPAN: usize = 0;

    pub const BODY: usize = 1;
}

/// A computed key (ECMA-262, ComputedPropertyName).
pub mod computed_prop_name {
    pub const SPAN: usize = 0;

    pub const EXPR: usize = 1;
}

/// A method of an object (ECMA-262, MethodDefinition).
pub mod method_prop {
    pub const KEY: usize = 0;

    pub const FUNCTION: usize = 1;
}

/// A getter of an object (ECMA-262, MethodDefinition).
pub mod getter_prop {
    pub const SPAN: usize = 0;

    pub const KEY: usize = 1;

    pub const BODY: usize = 2;
}

/// A setter of an object (ECMA-262, MethodDefinition).
pub mod setter_prop {
    pub const SPAN: usize = 0;

    pub const KEY: usize = 1;

    pub const PARAM: usize = 2;

    pub const BODY: usize = 3;
}
