//! Expressions, seen through what holds them.
ghost use Rattle.std.specs.Prelude.{◌≡◌};
ghost use Rattle.std.specs.Borrow.{LendsIf, sem};
ghost use Rattle.swc_tree_ext.specs.Rows.{expr_row};
ghost use Rattle.std.specs.Option.{option_copied, option_copied_mut};
ghost use Rattle.swc_tree_ext.specs.Exprs.{called, called_as, identifier_at, identifier_of, put_within, within};

use swc_tree_expressions::{Callee, Expr};
use swc_tree_handle::{Tree, class};
use swc_tree_items::Boxed;
use swc_tree_marks::Ident;
use swc_tree_node::{Kind, Node};

/// What may be an identifier expression.
pub trait ExprRefExt {
    ghost use Rattle.std.specs.Prelude.{Option};
    ghost use Rattle.swc_tree_marks.specs.declared.ident.Ident.{Ident};

    /// The identifier, if it is one.
    ghost identifier: { Self → Option Ident };

    /// The identifier of an identifier expression. It takes no memory.
    fn as_ident(&self) -> Option<&Ident>
        ensures { option_copied result ≡ identifier self.now };
}

impl ExprRefExt for Expr {
    ghost identifier = { identifier_of };

    fn as_ident(&self) -> Option<&Ident> {
        match self {
            Expr::Ident(ident) => Some(ident),
            _ => None,
        }
    }
}

impl ExprRefExt for Boxed<Expr> {
    ghost identifier = { identifier_of };

    fn as_ident(&self) -> Option<&Ident> {
        self.get().as_ident()
    }
}

impl ExprRefExt for Tree<class::Expr> {
    ghost identifier = { identifier_at };

    fn as_ident(&self) -> Option<&Ident> {
        match self.node() {
            Node::Identifier(Kind::Ident, ident) => Some(ident.get()),
            _ => None,
        }
    }
}

/// What may hold an expression.
pub trait AsOptExpr {
    ghost use Rattle.std.specs.Prelude.{Option};
    ghost use Rattle.swc_tree_node.specs.declared.node.Node.{Node};

    /// The expression, if there is one.
    ghost expr: { Self → Option Node };

    /// The same, with another expression in the place of its own, where it has one.
    ghost put: { Self → Node → Self };

    /// The expression that is held. It takes no memory.
    fn as_expr(&self) -> Option<&Tree<class::Expr>>
        ensures { option_copied result ≡ expr self.now };

    /// The expression that is held, to be changed in place. It takes no memory.
    fn as_expr_mut(&mut self) -> Option<&mut Tree<class::Expr>>
        ensures value { option_copied_mut result ≡ expr self.old }
        ensures* writes_back { sem 𝓛 (LendsIf Self.row expr_row self.entry result (put self.old) self.old) };
}

impl AsOptExpr for Callee {
    ghost expr = { called };

    ghost put = { called_as };

    fn as_expr(&self) -> Option<&Tree<class::Expr>> {
        match self {
            Callee::Expr(expr) => Some(expr),
            _ => None,
        }
    }

    fn as_expr_mut(&mut self) -> Option<&mut Tree<class::Expr>> {
        match self {
            Callee::Expr(held) => Some(held),
            _ => None,
        }
    }
}

impl<N: AsOptExpr> AsOptExpr for Option<N> {
    ghost expr = { within N.expr };

    ghost put = { put_within N.put };

    fn as_expr(&self) -> Option<&Tree<class::Expr>> {
        match self {
            Some(held) => held.as_expr(),
            None => None,
        }
    }

    fn as_expr_mut(&mut self) -> Option<&mut Tree<class::Expr>> {
        match self {
            Some(held) => held.as_expr_mut(),
            None => None,
        }
    }
}
