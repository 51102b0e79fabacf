//! What is asked in each field of a node.
ghost use Rattle.std.specs.Prelude.{◌≡◌};
ghost use Rattle.swc_tree_node.specs.declared.node.Node.TheOpen.{Node-F};
ghost use Rattle.swc_base_fixer_due.specs.Row.{ask_at, asks as asks_of, key_asks as key_asks_of, part_asks as part_asks_of, tight as tight_of, named as named_of, key_row as key_row_of, part_row as part_row_of, row_for, sides as sides_of, single as single_of};

use crate::reader::Naming;
use swc_base_fixer_demands::{
    Family, Test, behind_operator, is_absent, left_side, object, right_side, word_of,
};
use swc_tree_node::fields::{
    arrow_expr, assign_expr, assign_pat, assign_pat_prop, await_expr, bin_expr, call_expr, class,
    class_method, class_prop, cond_expr, export_default_expr, expr_or_spread, for_of_stmt,
    getter_prop, key_value_prop, member_expr, method_prop, new_expr, opt_call, private_prop,
    seq_expr, setter_prop, spread_element, tagged_tpl, unary_expr, update_expr, var_declarator,
    yield_expr,
};
use swc_tree_node::{Kind, Node, Word};

/// What is asked in a place, and what the reader's table names there.
#[derive(Clone, Copy)]
pub enum Ask {
    Nothing,
    /// At least a level, of each item of a list.
    Each(u8),
    /// Of a computed key that its expression has level 2.
    Key,
    /// What `new` may call, and no literal; the flag says whether the `new` has no arguments.
    NewCallee(bool),
    Single(Test, Naming),
}

/// The fields in which something is asked, with what it is.
#[derive(Clone, Copy)]
pub enum Row {
    Nothing,
    One(usize, Ask),
    Two(usize, Ask, usize, Ask),
    Three(usize, Ask, usize, Ask, usize, Ask),
}

impl Row {
    /// What is asked in a field.
    pub fn at(self, index: usize) -> Ask
        ensures { result ≡ ask_at self index }
    {
        match self {
            Row::One(i, ask) if index == i => ask,
            Row::Two(i, ask, _, _) if index == i => ask,
            Row::Two(_, _, j, ask) if index == j => ask,
            Row::Three(i, ask, _, _, _, _) if index == i => ask,
            Row::Three(_, _, j, ask, _, _) if index == j => ask,
            Row::Three(_, _, _, _, k, ask) if index == k => ask,
            _ => Ask::Nothing,
        }
    }
}

// What is asked in one place, where the reader's table names nothing.
fn single(test: Test) -> Ask
    ensures { result ≡ single_of test }
{
    Ask::Single(test, Naming::Nothing)
}

// At least a level.
fn tight(level: u8) -> Ask
    ensures { result ≡ tight_of level }
{
    single(Test::AtLeast(level))
}

// What is asked on the sides of an operator.
fn sides(op: Option<Word>) -> Row
    ensures { result ≡ sides_of op }
{
    let left = Ask::Single(left_side(op), Naming::OddLeft(op));
    Row::Two(
        bin_expr::LEFT,
        left,
        bin_expr::RIGHT,
        single(right_side(op)),
    )
}

// What is asked in a place where the reader's table names what is of a family.
fn named(test: Test, family: Family) -> Ask
    ensures { result ≡ named_of test family }
{
    Ask::Single(test, Naming::Of(family))
}

// What is asked in the fields of a part of a statement, of a list, of a class or of a pattern.
fn part_row(kind: Kind, fields: &[Node]) -> Row
    ensures { result ≡ part_row_of (Node-F.Tree kind fields.now) }
{
    match kind {
        Kind::ExprOrSpread if fields.len() == 2 => {
            let unspread = is_absent(&fields[expr_or_spread::SPREAD]);
            let ask = Ask::Single(Test::AtLeast(2), Naming::YieldIf(unspread));
            Row::One(expr_or_spread::EXPR, ask)
        }
        Kind::SpreadElement if fields.len() == 2 => Row::One(spread_element::EXPR, tight(2)),
        Kind::PrivateProp if fields.len() == 4 => Row::One(private_prop::VALUE, tight(2)),
        Kind::ArrowExpr if fields.len() == 4 => {
            let ask = Ask::Single(Test::Body, Naming::AssignmentTo(Family::Destructuring));
            Row::One(arrow_expr::BODY, ask)
        }
        Kind::Class if fields.len() == 3 => Row::One(class::SUPER_CLASS, tight(17)),
        Kind::VarDeclarator if fields.len() == 3 => Row::One(var_declarator::INIT, tight(2)),
        Kind::AssignPat if fields.len() == 3 => Row::One(assign_pat::RIGHT, tight(2)),
        Kind::AssignPatProp if fields.len() == 3 => Row::One(assign_pat_prop::VALUE, tight(2)),
        Kind::ExportDefaultExpr if fields.len() == 2 => {
            Row::One(
                export_default_expr::EXPR,
                named(Test::AtLeast(2), Family::Arrow),
            )
        }
        Kind::ForOfStmt if fields.len() == 5 => {
            Row::One(for_of_stmt::RIGHT, named(Test::AtLeast(2), Family::Await))
        }
        _ => Row::Nothing,
    }
}

// What is asked in the fields of a node that has a key.
fn key_row(kind: Kind, fields: &[Node]) -> Row
    ensures { result ≡ key_row_of (Node-F.Tree kind fields.now) }
{
    match kind {
        Kind::KeyValueProp if fields.len() == 2 => {
            Row::Two(
                key_value_prop::KEY,
                Ask::Key,
                key_value_prop::VALUE,
                tight(2),
            )
        }
        Kind::MethodProp | Kind::KeyValuePatProp if fields.len() == 2 => {
            Row::One(method_prop::KEY, Ask::Key)
        }
        Kind::GetterProp if fields.len() == 3 => Row::One(getter_prop::KEY, Ask::Key),
        Kind::SetterProp | Kind::Constructor if fields.len() == 4 => {
            Row::One(setter_prop::KEY, Ask::Key)
        }
        Kind::ClassMethod if fields.len() == 5 => Row::One(class_method::KEY, Ask::Key),
        Kind::ClassProp if fields.len() == 4 => {
            Row::Two(class_prop::KEY, Ask::Key, class_prop::VALUE, tight(2))
        }
        kind => part_row(kind, fields),
    }
}

/// What is asked in the fields of a node; the flag says that the node is the base of an optional chain.
pub fn row_of(in_chain: bool, kind: Kind, fields: &[Node]) -> Row
    ensures { result ≡ row_for in_chain (Node-F.Tree kind fields.now) }
{
    match kind {
        Kind::SeqExpr if fields.len() == 2 => Row::One(seq_expr::EXPRS, Ask::Each(2)),
        Kind::AssignExpr if fields.len() == 4 => Row::One(assign_expr::RIGHT, tight(2)),
        Kind::CondExpr if fields.len() == 4 => {
            Row::Three(
                cond_expr::TEST,
                tight(4),
                cond_expr::CONS,
                tight(2),
                cond_expr::ALT,
                tight(2),
            )
        }
        Kind::BinExpr if fields.len() == 4 => sides(word_of(&fields[bin_expr::OP])),
        Kind::UnaryExpr if fields.len() == 3 => {
            Row::One(unary_expr::ARG, single(behind_operator()))
        }
        Kind::AwaitExpr if fields.len() == 2 => {
            Row::One(await_expr::ARG, single(behind_operator()))
        }
        Kind::UpdateExpr if fields.len() == 4 => Row::One(update_expr::ARG, tight(17)),
        Kind::YieldExpr if fields.len() == 3 => Row::One(yield_expr::ARG, tight(2)),
        Kind::MemberExpr if fields.len() == 3 => {
            Row::One(member_expr::OBJ, named(object(in_chain), Family::OddObject))
        }
        Kind::TaggedTpl if fields.len() == 3 => {
            Row::One(tagged_tpl::TAG, named(Test::Operand, Family::Function))
        }
        Kind::CallExpr if fields.len() == 3 => {
            Row::One(call_expr::CALLEE, named(Test::Operand, Family::OddCallee))
        }
        Kind::OptCall if fields.len() == 3 => {
            Row::One(opt_call::CALLEE, named(Test::Link, Family::OddCallee))
        }
        Kind::NewExpr if fields.len() == 3 => {
            let bare = is_absent(&fields[new_expr::ARGS]);
            Row::One(new_expr::CALLEE, Ask::NewCallee(bare))
        }
        kind => key_row(kind, fields),
    }
}

// Whether `part_row` may ask something of a node of a kind.
fn part_asks(kind: Kind) -> bool
    ensures { result ≡ part_asks_of kind }
{
    matches!(
        kind,
        Kind::ExprOrSpread
            | Kind::SpreadElement
            | Kind::PrivateProp
            | Kind::ArrowExpr
            | Kind::Class
            | Kind::VarDeclarator
            | Kind::AssignPat
            | Kind::AssignPatProp
            | Kind::ExportDefaultExpr
            | Kind::ForOfStmt
    )
}

// Whether `key_row` may.
fn key_asks(kind: Kind) -> bool
    ensures { result ≡ key_asks_of kind }
{
    match kind {
        Kind::KeyValueProp
        | Kind::MethodProp
        | Kind::GetterProp
        | Kind::SetterProp
        | Kind::Constructor
        | Kind::ClassMethod
        | Kind::ClassProp
        | Kind::KeyValuePatProp => true,
        kind => part_asks(kind),
    }
}

/// Whether something may be asked in the fields of a node of a kind. Where nothing is, no row is made.
pub fn asks(kind: Kind) -> bool
    ensures { result ≡ asks_of kind }
{
    match kind {
        Kind::SeqExpr
        | Kind::AssignExpr
        | Kind::CondExpr
        | Kind::BinExpr
        | Kind::UnaryExpr
        | Kind::AwaitExpr
        | Kind::UpdateExpr
        | Kind::YieldExpr
        | Kind::MemberExpr
        | Kind::TaggedTpl
        | Kind::CallExpr
        | Kind::OptCall
        | Kind::NewExpr => true,
        kind => key_asks(kind),
    }
}
