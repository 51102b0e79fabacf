//! Identifiers, and what an id is.
ghost use Rattle.std.specs.Prelude.{◌≡◌, IfOk};

use crate::context::SyntaxContext;
use crate::span::Span;
use std::alloc::AllocError;
use swc_tree_items::Text;

/// A text of a program: a name, the value of a literal.
pub type Atom = Text;

/// A text that names something.
pub type JsWord = Text;

/// What a name stands for: names of one text and one context are one.
pub type Id = (JsWord, SyntaxContext);

/// An identifier (ECMA-262, IdentifierReference, BindingIdentifier and LabelIdentifier).
#[derive(Debug, Drop, PartialEq, Eq, Hash)]
pub struct Ident {
    pub span: Span,
    pub ctxt: SyntaxContext,
    pub sym: JsWord,
}

impl Ident {
    /// The identifier's text with its context.
    pub fn to_id(&self) -> Result<Id, AllocError>
        ensures { IfOk result (λ id. (id.0 ≡ self.now.sym) × (id.1 ≡ self.now.ctxt)) }
    {
        Ok((self.sym.clone()?, self.ctxt.clone()?))
    }
}

impl Clone for Ident {
    ghost is_clone = { λ ident copy. copy ≡ ident };

    fn clone(&self) -> Result<Ident, AllocError> {
        Ok(Ident {
            span: self.span,
            ctxt: self.ctxt.clone()?,
            sym: self.sym.clone()?,
        })
    }
}
