//! Printed by tools/print_table.py from tools/tree.txt.
ghost use Rattle.std.specs.Prelude.{◌≡◌, IfOk};
ghost use Rattle.swc_tree_node.specs.declared.kind.Class.TheVariants as class;
ghost use Rattle.swc_tree_node.specs.declared.slot.Slot.TheVariants.{One};
ghost use Rattle.swc_tree_node.specs.declared.slot.Content.TheVariants.{Node as Of};
ghost use Rattle.swc_tree_node.specs.Fits.{Fits};
ghost use Rattle.swc_tree_expressions.specs.Nodes.{of_expr};

use std::alloc::{AllocError, Global};
use swc_tree_functions::{ArrowExpr, ClassExpr, FnExpr};
use swc_tree_handle::{Opened, Tree, class};
use swc_tree_leaves::{Lit, MetaPropExpr, PrivateName, ThisExpr};
use swc_tree_marks::Ident;
use swc_tree_node::{Kind, Node};
use swc_tree_operations::{
    ArrayLit, AssignExpr, AwaitExpr, BinExpr, CallExpr, CondExpr, MemberExpr, NewExpr, ObjectLit,
    OptChainExpr, ParenExpr, SeqExpr, SuperPropExpr, TaggedTpl, Tpl, UnaryExpr, UpdateExpr,
    YieldExpr,
};

/// An expression (ECMA-262, Expression).
#[derive(Clone, Debug, Drop, PartialEq, Eq)]
pub enum Expr {
    This(ThisExpr),
    Array(ArrayLit),
    Object(ObjectLit),
    Fn(FnExpr),
    Unary(UnaryExpr),
    Update(UpdateExpr),
    Bin(BinExpr),
    Assign(AssignExpr),
    Member(MemberExpr),
    SuperProp(SuperPropExpr),
    Cond(CondExpr),
    Call(CallExpr),
    New(NewExpr),
    Seq(SeqExpr),
    Ident(Ident),
    Lit(Lit),
    Tpl(Tpl),
    TaggedTpl(TaggedTpl),
    Arrow(ArrowExpr),
    Class(ClassExpr),
    Yield(YieldExpr),
    MetaProp(MetaPropExpr),
    Await(AwaitExpr),
    Paren(ParenExpr),
    PrivateName(PrivateName),
    OptChain(OptChainExpr),
}

impl Opened<class::Expr> for Expr {
    ghost class = { class.Expr };

    ghost node = { of_expr };

    fn from_node(closed: Node) -> Expr
        requires { Fits closed (One (Of class.Expr)) }
        ensures { of_expr result ≡ closed }
    {
        let tree = Tree::<class::Expr>::from_node(closed);
        match tree.kind() {
            Kind::ThisExpr => Expr::This(tree.narrow::<class::ThisExpr>().open()),
            Kind::ArrayLit => Expr::Array(tree.narrow::<class::ArrayLit>().open()),
            Kind::ObjectLit => Expr::Object(tree.narrow::<class::ObjectLit>().open()),
            Kind::FnExpr => Expr::Fn(tree.narrow::<class::FnExpr>().open()),
            Kind::UnaryExpr => Expr::Unary(tree.narrow::<class::UnaryExpr>().open()),
            Kind::UpdateExpr => Expr::Update(tree.narrow::<class::UpdateExpr>().open()),
            Kind::BinExpr => Expr::Bin(tree.narrow::<class::BinExpr>().open()),
            Kind::AssignExpr => Expr::Assign(tree.narrow::<class::AssignExpr>().open()),
            Kind::MemberExpr => Expr::Member(tree.narrow::<class::MemberExpr>().open()),
            Kind::SuperPropExpr => Expr::SuperProp(tree.narrow::<class::SuperPropExpr>().open()),
            Kind::CondExpr => Expr::Cond(tree.narrow::<class::CondExpr>().open()),
            Kind::CallExpr => Expr::Call(tree.narrow::<class::CallExpr>().open()),
            Kind::NewExpr => Expr::New(tree.narrow::<class::NewExpr>().open()),
            Kind::SeqExpr => Expr::Seq(tree.narrow::<class::SeqExpr>().open()),
            Kind::Ident => Expr::Ident(tree.narrow::<class::Ident>().open()),
            Kind::Str | Kind::Bool | Kind::Null | Kind::Number | Kind::BigInt | Kind::Regex =>
                Expr::Lit(tree.narrow::<class::Lit>().open()),
            Kind::Tpl => Expr::Tpl(tree.narrow::<class::Tpl>().open()),
            Kind::TaggedTpl => Expr::TaggedTpl(tree.narrow::<class::TaggedTpl>().open()),
            Kind::ArrowExpr => Expr::Arrow(tree.narrow::<class::ArrowExpr>().open()),
            Kind::ClassExpr => Expr::Class(tree.narrow::<class::ClassExpr>().open()),
            Kind::YieldExpr => Expr::Yield(tree.narrow::<class::YieldExpr>().open()),
            Kind::MetaPropExpr => Expr::MetaProp(tree.narrow::<class::MetaPropExpr>().open()),
            Kind::AwaitExpr => Expr::Await(tree.narrow::<class::AwaitExpr>().open()),
            Kind::ParenExpr => Expr::Paren(tree.narrow::<class::ParenExpr>().open()),
            Kind::PrivateName => Expr::PrivateName(tree.narrow::<class::PrivateName>().open()),
            Kind::OptChainExpr => Expr::OptChain(tree.narrow::<class::OptChainExpr>().open()),
            _ => unreachable!(),
        }
    }

    fn into_node(self, alloc: Global) -> Result<Node, AllocError>
        ensures { IfOk result (λ closed. (closed ≡ of_expr self) × Fits closed (One (Of class.Expr))) }
    {
        match self {
            Expr::This(opened) => opened.close_within::<class::Expr>(alloc),
            Expr::Array(opened) => opened.close_within::<class::Expr>(alloc),
            Expr::Object(opened) => opened.close_within::<class::Expr>(alloc),
            Expr::Fn(opened) => opened.close_within::<class::Expr>(alloc),
            Expr::Unary(opened) => opened.close_within::<class::Expr>(alloc),
            Expr::Update(opened) => opened.close_within::<class::Expr>(alloc),
            Expr::Bin(opened) => opened.close_within::<class::Expr>(alloc),
            Expr::Assign(opened) => opened.close_within::<class::Expr>(alloc),
            Expr::Member(opened) => opened.close_within::<class::Expr>(alloc),
            Expr::SuperProp(opened) => opened.close_within::<class::Expr>(alloc),
            Expr::Cond(opened) => opened.close_within::<class::Expr>(alloc),
            Expr::Call(opened) => opened.close_within::<class::Expr>(alloc),
            Expr::New(opened) => opened.close_within::<class::Expr>(alloc),
            Expr::Seq(opened) => opened.close_within::<class::Expr>(alloc),
            Expr::Ident(opened) => opened.close_within::<class::Expr>(alloc),
            Expr::Lit(opened) => opened.close_within::<class::Expr>(alloc),
            Expr::Tpl(opened) => opened.close_within::<class::Expr>(alloc),
            Expr::TaggedTpl(opened) => opened.close_within::<class::Expr>(alloc),
            Expr::Arrow(opened) => opened.close_within::<class::Expr>(alloc),
            Expr::Class(opened) => opened.close_within::<class::Expr>(alloc),
            Expr::Yield(opened) => opened.close_within::<class::Expr>(alloc),
            Expr::MetaProp(opened) => opened.close_within::<class::Expr>(alloc),
            Expr::Await(opened) => opened.close_within::<class::Expr>(alloc),
            Expr::Paren(opened) => opened.close_within::<class::Expr>(alloc),
            Expr::PrivateName(opened) => opened.close_within::<class::Expr>(alloc),
            Expr::OptChain(opened) => opened.close_within::<class::Expr>(alloc),
        }
    }
}
