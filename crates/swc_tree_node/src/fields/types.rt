//! Where fields stand: Types, and what declares them.
//!
//! Printed by tools/print_table.py from tools/tree.txt.

/// An interface: a type of named members.
pub mod ts_interface_decl {
    pub const SPAN: usize = 0;

    pub const ID: usize = 1;

    pub const TYPE_PARAMS: usize = 2;

    pub const EXTENDS: usize = 3;

    pub const BODY: usize = 4;
}

/// A name for a type.
pub mod ts_type_alias_decl {
    pub const SPAN: usize = 0;

    pub const ID: usize = 1;

    pub const TYPE_PARAMS: usize = 2;

    pub const TYPE_ANN: usize = 3;
}

/// A parameter of an interface or of an alias.
pub mod ts_type_param {
    pub const SPAN: usize = 0;

    pub const NAME: usize = 1;

    pub const CONSTRAINT: usize = 2;

    pub const DEFAULT: usize = 3;
}

/// An enum: values under names.
pub mod ts_enum_decl {
    pub const SPAN: usize = 0;

    pub const ID: usize = 1;

    pub const MEMBERS: usize = 2;
}

/// One value of an enum.
pub mod ts_enum_member {
    pub const SPAN: usize = 0;

    pub const ID: usize = 1;

    pub const INIT: usize = 2;
}

/// A namespace: items under a name.
pub mod ts_module_decl {
    pub const SPAN: usize = 0;

    pub const ID: usize = 1;

    pub const BODY: usize = 2;
}

/// A type with a word for a name.
pub mod ts_keyword_type {
    pub const SPAN: usize = 0;

    pub const KIND: usize = 1;
}

/// A type by its name, with what stands for its parameters.
pub mod ts_type_ref {
    pub const SPAN: usize = 0;

    pub const NAME: usize = 1;

    pub const TYPE_ARGS: usize = 2;
}

/// The type of arrays of a type.
pub mod ts_array_type {
    pub const SPAN: usize = 0;

    pub const ELEM: usize = 1;
}

/// What is of one of some types.
pub mod ts_union_type {
    pub const SPAN: usize = 0;

    pub const TYPES: usize = 1;
}

/// A type that is written out.
pub mod ts_type_lit {
    pub const SPAN: usize = 0;

    pub const MEMBERS: usize = 1;
}

/// A named member of a type.
pub mod ts_property_signature {
    pub const SPAN: usize = 0;

    pub const KEY: usize = 1;

    pub const OPTIONAL: usize = 2;

    pub const TYPE_ANN: usize = 3;
}

/// A name in a namespace.
pub mod ts_qualified_name {
    pub const SPAN: usize = 0;

    pub const LEFT: usize = 1;

    pub const RIGHT: usize = 2;
}
