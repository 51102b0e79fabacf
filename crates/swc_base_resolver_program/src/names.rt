//! The names that a scope takes, and how they are bound.
ghost use Rattle.std.specs.Prelude.{◌≡◌, ℕ, List, OnOk};
ghost use Rattle.swc_tree_scoping.specs.Declares.{is_no_variable as binds_otherwise, is_parameter as binds_parameter, is_settled as binds_settled, stops as binds_stop, stops_in_block as binds_stop_in_block};
ghost use Rattle.swc_base_resolver_program.specs.Names.{any_way, both_ways, has_way, member_ways, no_ways, ways_by, ways_of, with_way};
ghost use Rattle.swc_base_resolver_program.specs.Inserted.{IsInserted};
ghost use Rattle.swc_base_resolver_program.specs.Reached.{can_reach as can_reach_from_block, takes_reaching};

use std::alloc::{AllocError, Global};
use std::collections::BTreeMap;
use swc_tree_scoping::Standing;

/// The ways in which a scope takes one name: how it is bound there as a value, whether it is declared as a type, and whether it is
/// the name of an enum's member.
#[derive(Clone, Copy)]
pub struct Ways {
    variable: bool,
    lexical: bool,
    function: bool,
    block_function: bool,
    sloppy_function: bool,
    parameter: bool,
    catch_parameter: bool,
    import: bool,
    function_name: bool,
    class_name: bool,
    as_type: bool,
    member: bool,
}

impl Ways {
    /// No way: the scope does not take the name.
    pub fn none() -> Ways
        ensures { result ≡ no_ways }
    {
        Ways {
            variable: false,
            lexical: false,
            function: false,
            block_function: false,
            sloppy_function: false,
            parameter: false,
            catch_parameter: false,
            import: false,
            function_name: false,
            class_name: false,
            as_type: false,
            member: false,
        }
    }

    /// That of a name that stands so, and whether it is declared as a type.
    pub fn by(standing: Standing, as_type: bool) -> Ways
        ensures { result ≡ ways_by standing as_type }
    {
        Ways {
            as_type,
            ..Ways::none().with(standing)
        }
    }

    /// That of an enum's member.
    pub fn of_member() -> Ways
        ensures { result ≡ member_ways }
    {
        Ways {
            member: true,
            ..Ways::none()
        }
    }

    /// Whether the name is declared as a type.
    pub fn is_type(&self) -> bool
        ensures { result ≡ self.now.as_type }
    {
        self.as_type
    }

    /// Whether it is the name of an enum's member.
    pub fn is_member(&self) -> bool
        ensures { result ≡ self.now.member }
    {
        self.member
    }

    /// Whether the name is bound so.
    pub fn has(&self, standing: Standing) -> bool
        ensures { result ≡ has_way self.now standing }
    {
        match standing {
            Standing::Variable => self.variable,
            Standing::Lexical => self.lexical,
            Standing::Function => self.function,
            Standing::BlockFunction => self.block_function,
            Standing::SloppyFunction => self.sloppy_function,
            Standing::Parameter => self.parameter,
            Standing::CatchParameter => self.catch_parameter,
            Standing::Import => self.import,
            Standing::FunctionName => self.function_name,
            Standing::ClassName => self.class_name,
            _ => false,
        }
    }

    /// Whether it is a parameter's name.
    pub fn is_parameter(&self) -> bool
        ensures { result ≡ any_way binds_parameter self.now }
    {
        self.parameter || self.catch_parameter
    }

    /// Whether it stops a function of the name in its own block.
    pub fn stops_in_block(&self) -> bool
        ensures { result ≡ any_way binds_stop_in_block self.now }
    {
        self.lexical || self.import || self.parameter || self.catch_parameter
    }

    /// Whether it stops a function of the name on its way out of blocks.
    pub fn stops(&self) -> bool
        ensures { result ≡ any_way binds_stop self.now }
    {
        self.stops_in_block() || self.block_function || self.sloppy_function
    }

    /// Whether it is bound by something else than variables and plain functions of sloppy code in blocks.
    pub fn is_no_variable(&self) -> bool
        ensures { result ≡ any_way binds_otherwise self.now }
    {
        self.lexical
            || self.function
            || self.block_function
            || self.parameter
            || self.catch_parameter
            || self.import
            || self.function_name
            || self.class_name
    }

    /// Whether it is bound by something else than plain functions of sloppy code in blocks.
    pub fn is_settled(&self) -> bool
        ensures { result ≡ any_way binds_settled self.now }
    {
        self.variable || self.is_no_variable()
    }

    /// Whether it is bound by a variable or by a plain function of sloppy code in a block.
    pub fn can_reach(&self) -> bool
        ensures { result ≡ can_reach_from_block self.now }
    {
        self.variable || self.sloppy_function
    }

    // The same with one way more, if names are bound so.
    fn with(mut self, standing: Standing) -> Ways
        ensures { result ≡ with_way self standing }
    {
        match standing {
            Standing::Variable => self.variable = true,
            Standing::Lexical => self.lexical = true,
            Standing::Function => self.function = true,
            Standing::BlockFunction => self.block_function = true,
            Standing::SloppyFunction => self.sloppy_function = true,
            Standing::Parameter => self.parameter = true,
            Standing::CatchParameter => self.catch_parameter = true,
            Standing::Import => self.import = true,
            Standing::FunctionName => self.function_name = true,
            Standing::ClassName => self.class_name = true,
            _ => (),
        }
        self
    }

    // The ways of the one and of the other.
    fn joined(self, more: Ways) -> Ways
        ensures { result ≡ both_ways self more }
    {
        Ways {
            variable: self.variable | more.variable,
            lexical: self.lexical | more.lexical,
            function: self.function | more.function,
            block_function: self.block_function | more.block_function,
            sloppy_function: self.sloppy_function | more.sloppy_function,
            parameter: self.parameter | more.parameter,
            catch_parameter: self.catch_parameter | more.catch_parameter,
            import: self.import | more.import,
            function_name: self.function_name | more.function_name,
            class_name: self.class_name | more.class_name,
            as_type: self.as_type | more.as_type,
            member: self.member | more.member,
        }
    }
}

/// The names that a scope takes, each with the ways in which it does.
///
/// A look-up costs the logarithm of how many there are, whatever the names: a hash of a seed that is fixed would let a program
/// choose names that all collide.
#[derive(Drop)]
pub struct ScopeNames {
    names: BTreeMap<String, Ways>,
}

impl ScopeNames {
    /// Those of a scope that takes none.
    pub fn new(alloc: Global) -> ScopeNames
        ensures { (x : List ℕ) → ways_of result x ≡ no_ways }
    {
        ScopeNames {
            names: BTreeMap::new(alloc),
        }
    }

    /// The ways in which the scope takes a name.
    pub fn get(&self, name: &str) -> Ways
        ensures { result ≡ ways_of self.now name.now }
    {
        match self.names.get(name) {
            Some(ways) => *ways,
            None => Ways::none(),
        }
    }

    /// Whether the scope takes a variable or a plain function of sloppy code in a block.
    pub fn any_can_reach(&self) -> bool
        ensures { result ≡ takes_reaching self.now }
    {
        self.names.values().any(|ways| ways.can_reach())
    }

    /// Adds ways in which the scope takes a name.
    pub fn insert(&mut self, alloc: Global, name: &str, more: Ways) -> Result<(), AllocError>
        ensures { OnOk result (IsInserted self.old self.new name.now more) }
    {
        let ways = self.get(name).joined(more);
        let copy = String::from_str(alloc, name)?;
        self.names.insert(copy, ways)?;
        Ok(())
    }
}
