//! Where fields stand: Patterns.
//!
//! Printed by tools/print_table.py from tools/tree.txt.

/// A pattern of elements, some left out (ECMA-262, ArrayBindingPattern).
pub mod array_pat {
    pub const SPAN: usize = 0;

    pub const ELEMS: usize = 1;
}

/// What takes the rest (ECMA-262, BindingRestElement).
pub mod rest_pat {
    pub const SPAN: usize = 0;

    pub const ARG: usize = 1;
}

/// A pattern of properties (ECMA-262, ObjectBindingPattern).
pub mod object_pat {
    pub const SPAN: usize = 0;

    pub const PROPS: usize = 1;
}

/// A pattern with a default (ECMA-262, BindingElement).
pub mod assign_pat {
    pub const SPAN: usize = 0;

    pub const LEFT: usize = 1;

    pub const RIGHT: usize = 2;
}

/// A key and a pattern for its value (ECMA-262, BindingProperty).
pub mod key_value_pat_prop {
    pub const KEY: usize = 0;

    pub const VALUE: usize = 1;
}

/// A name that is both key and target, with its default (ECMA-262, SingleNameBinding).
pub mod assign_pat_prop {
    pub const SPAN: usize = 0;

    pub const KEY: usize = 1;

    pub const VALUE: usize = 2;
}
