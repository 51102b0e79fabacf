//! The second step: pairs round a bare `in` in the first part of the head of a `for`, and round a bare `async`
//! before `of` (ECMA-262, 14.7).
ghost use Rattle.std.specs.Prelude.{◌≡◌, false, ◌||◌, length, IfOk, OnOk};
ghost use Rattle.swc_tree_node.specs.declared.kind.Kind.TheVariants as kind;
ghost use Rattle.swc_tree_node.specs.declared.node.Node.TheOpen.{Node-F};
ghost use Rattle.swc_tree_grammar.specs.Forms.{holds as is_held};
ghost use Rattle.swc_tree_grammar.specs.Due.{async_in};
ghost use Rattle.swc_tree_grammar.specs.Grammar.{is_async_name as is_async_name_in};
ghost use Rattle.swc_tree_node.specs.declared.node.Node.{Tree, out-Node};
ghost use Rattle.swc_base_fixer_due.specs.Heads.{as_expression as as_expression_of, flag_at, handing_for, is_bare_in as is_bare_in_of, of_headed};
ghost use Rattle.swc_base_fixer_due.specs.Record.{place_in};
ghost use Rattle.swc_base_fixer_due.specs.Walk.{in_heads};
ghost use Rattle.swc_base_fixer_due.specs.declared.heads.Handing.TheVariants.{ToAll};
ghost use Rattle.swc_base_fixer_due.specs.HeadLaws.{heads_leave, heads_list, heads_tree};

use crate::pair::pair;
use crate::pairing::{Pairing, pair_tree};
use crate::record::Record;
use std::alloc::{AllocError, Global};
use swc_base_fixer_demands::{is_in, word_of};
use swc_tree_items::Items;
use swc_tree_node::fields::{
    arrow_expr, assign_expr, assign_pat, await_expr, bin_expr, call_expr, cond_expr, for_in_stmt,
    for_of_stmt, for_stmt, member_expr, opt_chain_expr, rest_pat, seq_expr, unary_expr,
    update_expr, var_decl, var_declarator, yield_expr,
};
use swc_tree_node::{Kind, Node};

/// To which fields a node hands on whether `in` may stand bare; in the others it may.
#[derive(Clone, Copy)]
pub enum Handing {
    ToAll,
    ToNone,
    ToOne(usize),
    ToTwo(usize, usize),
    /// A field in which no `in` may stand bare.
    Head(usize),
}

impl Handing {
    // Whether `in` may stand bare in a field of a node where it may if `with_in` holds.
    fn flag(self, with_in: bool, index: usize) -> bool
        ensures { result ≡ flag_at self with_in index }
    {
        match self {
            Handing::ToAll => with_in,
            Handing::ToOne(i) if index == i => with_in,
            Handing::ToTwo(i, j) if index == i || index == j => with_in,
            Handing::Head(i) if index == i => false,
            _ => true,
        }
    }
}

// To which fields a node hands on whether `in` may stand bare.
fn handing_of(kind: Kind, fields: &[Node]) -> Handing
    ensures { result ≡ handing_for (Node-F.Tree kind fields.now) }
{
    match kind {
        Kind::BinExpr if fields.len() == 4 => Handing::ToTwo(bin_expr::LEFT, bin_expr::RIGHT),
        Kind::SeqExpr if fields.len() == 2 => Handing::ToOne(seq_expr::EXPRS),
        Kind::AssignExpr if fields.len() == 4 => {
            Handing::ToTwo(assign_expr::LEFT, assign_expr::RIGHT)
        }
        Kind::CondExpr if fields.len() == 4 => Handing::ToTwo(cond_expr::TEST, cond_expr::ALT),
        Kind::UnaryExpr if fields.len() == 3 => Handing::ToOne(unary_expr::ARG),
        Kind::AwaitExpr if fields.len() == 2 => Handing::ToOne(await_expr::ARG),
        Kind::UpdateExpr if fields.len() == 4 => Handing::ToOne(update_expr::ARG),
        Kind::YieldExpr if fields.len() == 3 => Handing::ToOne(yield_expr::ARG),
        Kind::MemberExpr | Kind::TaggedTpl if fields.len() == 3 => {
            Handing::ToOne(member_expr::OBJ)
        }
        Kind::CallExpr | Kind::NewExpr | Kind::OptCall if fields.len() == 3 => {
            Handing::ToOne(call_expr::CALLEE)
        }
        Kind::OptChainExpr if fields.len() == 3 => Handing::ToOne(opt_chain_expr::BASE),
        Kind::ArrowExpr if fields.len() == 4 => Handing::ToOne(arrow_expr::BODY),
        Kind::VarDecl if fields.len() == 3 => Handing::ToOne(var_decl::DECLS),
        Kind::VarDeclarator if fields.len() == 3 => {
            Handing::ToTwo(var_declarator::NAME, var_declarator::INIT)
        }
        Kind::AssignPat if fields.len() == 3 => Handing::ToTwo(assign_pat::LEFT, assign_pat::RIGHT),
        Kind::RestPat if fields.len() == 2 => Handing::ToOne(rest_pat::ARG),
        Kind::ForStmt if fields.len() == 5 => Handing::Head(for_stmt::INIT),
        Kind::ForInStmt if fields.len() == 4 => Handing::Head(for_in_stmt::LEFT),
        Kind::ForOfStmt if fields.len() == 5 => Handing::Head(for_of_stmt::LEFT),
        _ => Handing::ToNone,
    }
}

// Whether a node is an `in` where none may stand bare.
fn is_bare_in(with_in: bool, kind: Kind, fields: &[Node]) -> bool
    ensures { result ≡ is_bare_in_of with_in (Node-F.Tree kind fields.now) }
{
    match kind {
        Kind::BinExpr if fields.len() == 4 => is_in(word_of(&fields[bin_expr::OP])) && !with_in,
        _ => false,
    }
}

/// Whether a flag is set.
pub fn holds(node: &Node) -> bool
    ensures { result ≡ is_held node.now }
{
    match node {
        Node::Flag(flag) => *flag,
        _ => false,
    }
}

// Whether a node is the name `async`.
fn is_async_name(node: &Node) -> bool
    ensures { result ≡ is_async_name_in node.now }
{
    match node {
        Node::Identifier(_, ident) => ident.get().sym.as_str() == "async",
        _ => false,
    }
}

// An expression in place of a name that stands as a pattern.
fn as_expression(node: Node) -> Node
    ensures { result ≡ as_expression_of node (out-Node node) }
{
    match node {
        Node::Identifier(_, ident) => Node::Identifier(Kind::Ident, ident),
        node => node,
    }
}

// What stands before `of`; `with_await` says whether the loop is one of `for await`.
#[tactic(auto, using(crate::proofs::Heading::by_name))]
fn of_head(
    alloc: Global,
    recorded: &Record,
    with_await: bool,
    left: Node,
) -> Result<Node, AllocError>
    ensures { IfOk result (λ t. t ≡ async_in (place_in recorded.now) with_await left (out-Node left)) }
{
    if is_async_name(&left) && !with_await {
        pair(alloc, recorded, as_expression(left))
    } else {
        Ok(left)
    }
}

fn for_of(alloc: Global, recorded: &Record, fields: &mut Items<Node>) -> Result<(), AllocError>
    requires { length fields.old ≡ 5 }
    ensures { OnOk result (Tree kind.ForOfStmt fields.new ≡ of_headed (place_in recorded.now) kind.ForOfStmt fields.old) }
{
    let with_await = holds(&fields.as_slice()[for_of_stmt::IS_AWAIT]);
    let left = fields.replace(for_of_stmt::LEFT, Node::Absent);
    let left = of_head(alloc, recorded, with_await, left)?;
    fields.set(for_of_stmt::LEFT, left);
    Ok(())
}

// The fields of a tree that have their pairs, with the one that the head of a `for` of gets.
fn head(
    alloc: Global,
    recorded: &Record,
    kind: Kind,
    fields: &mut Items<Node>,
) -> Result<(), AllocError>
    ensures { OnOk result (Tree kind fields.new ≡ of_headed (place_in recorded.now) kind fields.old) }
{
    match kind {
        Kind::ForOfStmt if fields.len() == 5 => for_of(alloc, recorded, fields),
        _ => Ok(()),
    }
}

/// A node of the second step, which is told whether `in` may stand bare in it.
#[derive(Clone, Copy)]
pub struct Heads {
    is_bare_in: bool,
    with_in: bool,
    handing: Handing,
}

impl Pairing for Heads {
    ghost paired = { in_heads };

    ghost in_list = { λ with_in. record { is_bare_in = false; with_in = with_in; handing = ToAll } };

    ghost in_tree = { λ with_in k ts. record { is_bare_in = is_bare_in_of with_in (Node-F.Tree k ts); with_in = with_in || is_bare_in_of with_in (Node-F.Tree k ts); handing = handing_for (Node-F.Tree k ts) } };

    ghost tells = { λ tree i. flag_at tree.handing tree.with_in i };

    ghost settled = { λ place tree k ts. of_headed place k ts };

    ghost is_due = { λ tree. tree.is_bare_in };

    fn of_list(told: bool) -> Heads {
        Heads {
            is_bare_in: false,
            with_in: told,
            handing: Handing::ToAll,
        }
    }

    // In a pair `in` may stand bare.
    fn of_tree(told: bool, kind: Kind, fields: &[Node]) -> Heads {
        let is_bare_in = is_bare_in(told, kind, fields);
        Heads {
            is_bare_in,
            with_in: told || is_bare_in,
            handing: handing_of(kind, fields),
        }
    }

    fn tells(self, index: usize) -> bool {
        self.handing.flag(self.with_in, index)
    }

    fn settle(
        self,
        alloc: Global,
        recorded: &Record,
        kind: Kind,
        fields: &mut Items<Node>,
    ) -> Result<(), AllocError> {
        head(alloc, recorded, kind, fields)
    }

    fn is_due(self) -> bool {
        self.is_bare_in
    }

    ghost list_paired = { heads_list };

    ghost tree_paired = { heads_tree };

    ghost stays = { heads_leave };
}

/// The tree with the pairs that are due in heads of `for`; `with_in` says whether `in` may stand bare in it.
///
/// It goes through the tree once, in place.
pub fn pair_in_heads(
    alloc: Global,
    recorded: &Record,
    with_in: bool,
    node: Node,
) -> Result<Node, AllocError>
    ensures { IfOk result (λ t. t ≡ in_heads (place_in recorded.now) node with_in) }
{
    pair_tree::<Heads>(alloc, recorded, with_in, node)
}
