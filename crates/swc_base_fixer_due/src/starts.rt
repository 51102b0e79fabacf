//! The third step: pairs where a statement, a default export or the body of an arrow may not begin as it does
//! (ECMA-262, 14.5, 15.3 and 16.2.3).
ghost use Rattle.std.specs.Prelude.{◌≡◌, ◌<◌, false, length, IfOk, IfSome, OnOk};
ghost use Rattle.swc_tree_node.specs.declared.node.Node.{Tree};
ghost use Rattle.swc_tree_node.specs.declared.node.Node.TheOpen.{Node-F};
ghost use Rattle.swc_tree_grammar.specs.Due.{begin_step, begun as begun_of, paired_at_starts};
ghost use Rattle.swc_base_fixer_due.specs.Begin.{begins, beginning_for, first_paired as first_in_pair, may_begin as may_begin_with};
ghost use Rattle.swc_base_fixer_due.specs.Record.{place_in};
ghost use Rattle.swc_base_fixer_due.specs.StartLaws.{starts_leave, starts_list, starts_tree};

use crate::pair::pair;
use crate::pairing::{Pairing, pair_tree};
use crate::record::Record;
use crate::start::{Start, leading_field, start_of};
use std::alloc::{AllocError, Global};
use swc_base_fixer_demands::{Family, is_of};
use swc_tree_items::Items;
use swc_tree_node::fields::{arrow_expr, export_default_expr, expr_stmt};
use swc_tree_node::{Kind, Node};

/// Where an expression may not begin with just anything.
#[derive(Clone, Copy)]
pub enum Beginning {
    Statement,
    Export,
    /// The body of an arrow.
    Body,
}

// Whether an expression may begin so in a place.
fn may_begin(beginning: Beginning, start: Start) -> bool
    ensures { result ≡ may_begin_with beginning (begins start) }
{
    match beginning {
        Beginning::Statement => matches!(start, Start::Other),
        Beginning::Export => matches!(start, Start::Brace | Start::LetBracket | Start::Other),
        Beginning::Body => !matches!(start, Start::Brace),
    }
}

// An expression with a pair round the innermost expression that it begins with.
fn first_paired(alloc: Global, recorded: &Record, expr: Node) -> Result<Node, AllocError>
    ensures { IfOk result (λ t. t ≡ first_in_pair (place_in recorded.now) expr) }
{
    match expr {
        Node::List(mut exprs) => {
            if exprs.is_empty() {
                return pair(alloc, recorded, Node::List(exprs));
            }
            let first = exprs.replace(0, Node::Absent);
            let first = first_paired(alloc, recorded, first)?;
            exprs.set(0, first);
            Ok(Node::List(exprs))
        }
        Node::Tree(kind, mut fields) => match leading_field(kind, fields.as_slice()) {
            Some(index) => {
                let first = fields.replace(index, Node::Absent);
                let first = first_paired(alloc, recorded, first)?;
                fields.set(index, first);
                Ok(Node::Tree(kind, fields))
            }
            None => pair(alloc, recorded, Node::Tree(kind, fields)),
        },
        expr => pair(alloc, recorded, expr),
    }
}

// An expression as it may begin in a place.
fn begun(
    alloc: Global,
    recorded: &Record,
    beginning: Beginning,
    expr: Node,
) -> Result<Node, AllocError>
    ensures { IfOk result (λ t. t ≡ begun_of (place_in recorded.now) (may_begin_with beginning) expr) }
{
    if may_begin(beginning, start_of(&expr)) {
        Ok(expr)
    } else {
        first_paired(alloc, recorded, expr)
    }
}

// The field that is looked at for how it begins, and as what.
fn beginning_of(kind: Kind, fields: &[Node]) -> Option<(usize, Beginning)>
    ensures place { result ≡ beginning_for kind fields.now }
    ensures within { IfSome result (λ b. b.0 < length fields.now) }
{
    match kind {
        Kind::ExprStmt if fields.len() == 2 => Some((expr_stmt::EXPR, Beginning::Statement)),
        Kind::ExportDefaultExpr if fields.len() == 2 => {
            Some((export_default_expr::EXPR, Beginning::Export))
        }
        Kind::ArrowExpr if fields.len() == 4 => {
            if is_of(&fields[arrow_expr::BODY], Family::Block) {
                None
            } else {
                Some((arrow_expr::BODY, Beginning::Body))
            }
        }
        _ => None,
    }
}

// The fields of a tree, with the pair that one of them gets by how it begins.
fn begin(
    alloc: Global,
    recorded: &Record,
    kind: Kind,
    fields: &mut Items<Node>,
) -> Result<(), AllocError>
    ensures { OnOk result (Tree kind fields.new ≡ begin_step (place_in recorded.now) (Node-F.Tree kind fields.old)) }
{
    if let Some((index, beginning)) = beginning_of(kind, fields.as_slice()) {
        let expr = fields.replace(index, Node::Absent);
        let expr = begun(alloc, recorded, beginning, expr)?;
        fields.set(index, expr);
    }
    Ok(())
}

/// A node of the third step, which is told nothing.
#[derive(Clone, Copy)]
pub struct Starts;

impl Pairing for Starts {
    ghost paired = { λ place t _. paired_at_starts place t };

    ghost in_list = { λ _. record {} };

    ghost in_tree = { λ _ _ _. record {} };

    ghost tells = { λ _ _. false };

    ghost settled = { λ place _ k ts. begin_step place (Node-F.Tree k ts) };

    ghost is_due = { λ _. false };

    fn of_list(_told: bool) -> Starts {
        Starts
    }

    fn of_tree(_told: bool, _kind: Kind, _fields: &[Node]) -> Starts {
        Starts
    }

    fn tells(self, _index: usize) -> bool {
        false
    }

    fn settle(
        self,
        alloc: Global,
        recorded: &Record,
        kind: Kind,
        fields: &mut Items<Node>,
    ) -> Result<(), AllocError> {
        begin(alloc, recorded, kind, fields)
    }

    fn is_due(self) -> bool {
        false
    }

    ghost list_paired = { λ place _. starts_list place };

    ghost tree_paired = { λ place _. starts_tree place };

    ghost stays = { λ place _. starts_leave place };
}

/// The tree with the pairs that are due at the start of statements, default exports and bodies of arrows.
///
/// It goes through the tree once, in place. The start of each such expression is looked at once, and once more where
/// it gets a pair; no two of these ways share a node.
pub fn pair_at_starts(alloc: Global, recorded: &Record, node: Node) -> Result<Node, AllocError>
    ensures { IfOk result (λ t. t ≡ paired_at_starts (place_in recorded.now) node) }
{
    pair_tree::<Starts>(alloc, recorded, false, node)
}
