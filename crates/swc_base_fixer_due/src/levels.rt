//! The first step: pairs round what is not as its place asks, or what the reader's table names there.
ghost use Rattle.std.specs.Prelude.{◌≡◌, Bool, true, false, length, map, IfOk, OnOk};
ghost use Rattle.swc_tree_node.specs.declared.kind.Kind.TheVariants as kind;
ghost use Rattle.swc_tree_node.specs.declared.node.Node.{Tree, out-Node};
ghost use Rattle.swc_tree_node.specs.declared.node.Node.TheOpen.{Node-F};
ghost use Rattle.swc_tree_grammar.specs.Due.{odd_items as odd_items_of, paired_in as paired_fields, sequence_statement as sequence_statement_of};
ghost use Rattle.swc_base_fixer_due.specs.Record.{place_in};
ghost use Rattle.swc_base_fixer_due.specs.Row.{ask_at};
ghost use Rattle.swc_base_fixer_due.specs.Settled.{odd_item as odd_item_of, odd_list as odd_list_of, settled_by};
ghost use Rattle.swc_base_fixer_due.specs.Walk.{by_level, each_told, is_base as is_base_of, is_chain_in, is_statement_in};
ghost use Rattle.swc_base_fixer_due.specs.LevelLaws.{level_list, level_tree, levels_leave};

use crate::pair::pair_if;
use crate::pairing::{Pairing, pair_tree};
use crate::reader::is_odd_item;
use crate::record::Record;
use crate::row::{Row, asks, row_of};
use crate::settle::{settle, stays};
use std::alloc::{AllocError, Global};
use swc_tree_items::Items;
use swc_tree_node::fields::{expr_stmt, opt_chain_expr, seq_expr};
use swc_tree_node::{Kind, Node};

// The fields, in each of which is settled what the row asks there.
#[tactic(auto, using(crate::proofs::Rows::nothing_asked))]
fn settle_fields(
    alloc: Global,
    recorded: &Record,
    row: Row,
    fields: &mut Items<Node>,
) -> Result<(), AllocError>
    ensures { OnOk result (fields.new ≡ each_told (settled_by (place_in recorded.now)) (ask_at row) fields.old) }
{
    if matches!(row, Row::Nothing) {
        return Ok(());
    }
    for i in 0..fields.len() {
        let ask = row.at(i);
        // A field that gets no pair stays where it is.
        if stays(ask, &fields.as_slice()[i]) {
            continue;
        }
        let field = fields.replace(i, Node::Absent);
        let done = settle(alloc, recorded, ask, field)?;
        fields.set(i, done);
    }
    Ok(())
}

// An item before the last of a sequence that is a statement.
fn odd_item(alloc: Global, recorded: &Record, expr: Node) -> Result<Node, AllocError>
    ensures { IfOk result (λ t. t ≡ odd_item_of (place_in recorded.now) expr) }
{
    let is_due = is_odd_item(&expr);
    pair_if(alloc, recorded, is_due, expr)
}

fn each_odd_item(
    alloc: Global,
    recorded: &Record,
    mut exprs: Items<Node>,
) -> Result<Items<Node>, AllocError>
    ensures { IfOk result (λ r. r ≡ map (odd_item_of (place_in recorded.now)) exprs) }
{
    for i in 0..exprs.len() {
        let expr = exprs.replace(i, Node::Absent);
        let done = odd_item(alloc, recorded, expr)?;
        exprs.set(i, done);
    }
    Ok(exprs)
}

// The items of a sequence that is a statement.
fn odd_items(
    alloc: Global,
    recorded: &Record,
    mut exprs: Items<Node>,
) -> Result<Items<Node>, AllocError>
    ensures { IfOk result (λ r. r ≡ odd_items_of (place_in recorded.now) exprs) }
{
    match exprs.pop() {
        None => Ok(exprs),
        Some(last) => {
            let mut exprs = each_odd_item(alloc, recorded, exprs)?;
            exprs.push(last)?;
            Ok(exprs)
        }
    }
}

// The list of the items of a sequence that is a statement. In each tree of the grammar a list stands there; what is no list
// has no items, so that it becomes the list of none, as the definition says it of every tree.
fn odd_list(alloc: Global, recorded: &Record, exprs: Node) -> Result<Node, AllocError>
    ensures { IfOk result (λ t. t ≡ odd_list_of (place_in recorded.now) exprs) }
{
    match exprs {
        Node::List(exprs) => {
            let exprs = odd_items(alloc, recorded, exprs)?;
            Ok(Node::List(exprs))
        }
        _ => Ok(Node::List(Items::new(alloc))),
    }
}

fn sequence(alloc: Global, recorded: &Record, mut fields: Items<Node>) -> Result<Node, AllocError>
    requires { length fields ≡ 2 }
    ensures { IfOk result (λ t. t ≡ sequence_statement_of (place_in recorded.now) (Tree kind.SeqExpr fields) (Node-F.Tree kind.SeqExpr fields)) }
{
    let exprs = fields.replace(seq_expr::EXPRS, Node::Absent);
    let exprs = odd_list(alloc, recorded, exprs)?;
    fields.set(seq_expr::EXPRS, exprs);
    Ok(Node::Tree(Kind::SeqExpr, fields))
}

// The expression of a statement, where it is a sequence with pairs round the items that the reader's table names.
fn sequence_statement(alloc: Global, recorded: &Record, expr: Node) -> Result<Node, AllocError>
    ensures { IfOk result (λ t. t ≡ sequence_statement_of (place_in recorded.now) expr (out-Node expr)) }
{
    match expr {
        Node::Tree(kind, fields) => match kind {
            Kind::SeqExpr if fields.len() == 2 => sequence(alloc, recorded, fields),
            kind => Ok(Node::Tree(kind, fields)),
        },
        expr => Ok(expr),
    }
}

// Whether a tree is a statement that is an expression.
fn is_statement(kind: Kind, fields: &[Node]) -> bool
    ensures { result ≡ is_statement_in (Node-F.Tree kind fields.now) }
{
    matches!(kind, Kind::ExprStmt) && fields.len() == 2
}

#[tactic(auto, using(crate::proofs::Rows::statement_long))]
fn statement(
    alloc: Global,
    recorded: &Record,
    kind: Kind,
    fields: &mut Items<Node>,
) -> Result<(), AllocError>
    requires { is_statement_in (Node-F.Tree kind fields.old) ≡ true }
    ensures { OnOk result ((in_chain : Bool) → Tree kind fields.new ≡ paired_fields (place_in recorded.now) in_chain (Node-F.Tree kind fields.old)) }
{
    let expr = fields.replace(expr_stmt::EXPR, Node::Absent);
    let expr = sequence_statement(alloc, recorded, expr)?;
    fields.set(expr_stmt::EXPR, expr);
    Ok(())
}

// The fields of a tree with their pairs; `in_chain` says whether it is the base of an optional chain.
fn paired(
    alloc: Global,
    recorded: &Record,
    in_chain: bool,
    kind: Kind,
    fields: &mut Items<Node>,
) -> Result<(), AllocError>
    ensures { OnOk result (Tree kind fields.new ≡ paired_fields (place_in recorded.now) in_chain (Node-F.Tree kind fields.old)) }
{
    if is_statement(kind, fields.as_slice()) {
        statement(alloc, recorded, kind, fields)?;
        return Ok(());
    }
    if !asks(kind) {
        return Ok(());
    }
    let row = row_of(in_chain, kind, fields.as_slice());
    settle_fields(alloc, recorded, row, fields)?;
    Ok(())
}

// Whether a tree is an optional chain.
fn is_chain(kind: Kind, fields: &[Node]) -> bool
    ensures { result ≡ is_chain_in (Node-F.Tree kind fields.now) }
{
    matches!(kind, Kind::OptChainExpr) && fields.len() == 3
}

// Whether a field of a node is the base of an optional chain; `chain` says whether the node is one.
fn is_base(chain: bool, index: usize) -> bool
    ensures { result ≡ is_base_of chain index }
{
    chain && index == opt_chain_expr::BASE
}

/// A node of the first step, which is told whether it is the base of an optional chain.
#[derive(Clone, Copy)]
pub struct Levels {
    in_chain: bool,
    is_chain: bool,
}

impl Pairing for Levels {
    ghost paired = { by_level };

    ghost in_list = { λ in_chain. record { in_chain = false; is_chain = false } };

    ghost in_tree = { λ in_chain k ts. record { in_chain = in_chain; is_chain = is_chain_in (Node-F.Tree k ts) } };

    ghost tells = { λ tree i. is_base_of tree.is_chain i };

    ghost settled = { λ place tree k ts. paired_fields place tree.in_chain (Node-F.Tree k ts) };

    ghost is_due = { λ tree. false };

    fn of_list(_told: bool) -> Levels {
        Levels {
            in_chain: false,
            is_chain: false,
        }
    }

    fn of_tree(told: bool, kind: Kind, fields: &[Node]) -> Levels {
        Levels {
            in_chain: told,
            is_chain: is_chain(kind, fields),
        }
    }

    fn tells(self, index: usize) -> bool {
        is_base(self.is_chain, index)
    }

    fn settle(
        self,
        alloc: Global,
        recorded: &Record,
        kind: Kind,
        fields: &mut Items<Node>,
    ) -> Result<(), AllocError> {
        paired(alloc, recorded, self.in_chain, kind, fields)
    }

    fn is_due(self) -> bool {
        false
    }

    ghost list_paired = { level_list };

    ghost tree_paired = { level_tree };

    ghost stays = { levels_leave };
}

/// The tree with a pair round each expression that is not what its place asks, or that the reader's table names
/// there; `in_chain` says whether it is the base of an optional chain.
///
/// It goes through the tree once, in place.
pub fn pair_by_level(
    alloc: Global,
    recorded: &Record,
    in_chain: bool,
    node: Node,
) -> Result<Node, AllocError>
    ensures { IfOk result (λ t. t ≡ by_level (place_in recorded.now) node in_chain) }
{
    pair_tree::<Levels>(alloc, recorded, in_chain, node)
}
