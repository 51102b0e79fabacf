//! What stands round a node.
ghost use Rattle.std.specs.Prelude.{◌≡◌};
ghost use Rattle.swc_base_writable_rules.specs.Rounds.{assigning as assigning_of, binding as binding_of, strictly as strictly_of};

/// What stands round a node: whether the code is strict, and whether the names in a pattern are assigned to and not bound.
#[derive(Clone, Copy)]
pub struct Round {
    pub strict: bool,
    pub assigned: bool,
}

impl Round {
    /// The same in code that may be strict by itself, where names are bound.
    pub fn strictly(self, strict: bool) -> Round
        ensures { result ≡ strictly_of strict self }
    {
        Round {
            strict: self.strict || strict,
            assigned: false,
        }
    }

    /// The same where names are bound.
    pub fn binding(self) -> Round
        ensures { result ≡ binding_of self }
    {
        Round {
            assigned: false,
            ..self
        }
    }

    /// The same where names are assigned to.
    pub fn assigning(self) -> Round
        ensures { result ≡ assigning_of self }
    {
        Round {
            assigned: true,
            ..self
        }
    }
}
