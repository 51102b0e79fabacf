//! What stands round a node.
ghost use Rattle.std.specs.Prelude.{◌≡◌};
ghost use Rattle.text_derives.specs.Contexts.{inside as inside_of, outside as outside_of, strictly as strictly_of};

/// The parameter In of the grammar, and whether the code is strict.
#[derive(Clone, Copy)]
pub struct Context {
    pub with_in: bool,
    pub strict: bool,
}

impl Context {
    /// The same where `in` may stand.
    pub fn inside(self) -> Context
        ensures { result ≡ inside_of self }
    {
        Context {
            with_in: true,
            ..self
        }
    }

    /// The same in the first part of the head of a `for`, where `in` may not stand bare.
    pub fn outside(self) -> Context
        ensures { result ≡ outside_of self }
    {
        Context {
            with_in: false,
            ..self
        }
    }

    /// The same in code that may be strict by itself, where `in` may stand.
    pub fn strictly(self, strict: bool) -> Context
        ensures { result ≡ strictly_of strict self }
    {
        Context {
            with_in: true,
            strict: self.strict || strict,
        }
    }
}
