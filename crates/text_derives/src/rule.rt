//! What is asked of a node, and what of each of its fields.
ghost use Rattle.std.specs.Prelude.{◌≡◌, ◌<◌, true, not};
ghost use Rattle.std.specs.List.{list_all};
ghost use Rattle.swc_tree_node.specs.declared.node.Node.TheOpen.{Node-F};
ghost use Rattle.text_derives.specs.declared.ask.Row.TheVariants as row;
ghost use Rattle.text_derives.specs.Rules as spec;

use crate::ask::{Ask, Row};
use crate::context::Context;
use crate::demand::{Demand, items, left_side, right_side};
use crate::form::{
    are_named, has_no_using, has_use_strict, is_async_name, is_set, is_strict, is_using,
};
use crate::level::{is_absent, is_in, word_of};
use crate::start::{may_be_export, may_be_statement};
use swc_base_fixer_unparen::takes_else;
use swc_tree_node::fields::{
    array_pat, arrow_expr, assign_expr, assign_pat, assign_pat_prop, await_expr, bin_expr,
    call_expr, catch_clause, class, class_method, class_prop, computed_prop_name, cond_expr,
    constructor, do_while_stmt, export_decl, export_default_expr, expr_or_spread, expr_stmt,
    for_in_stmt, for_of_stmt, for_stmt, function, getter_prop, if_stmt, key_value_pat_prop,
    key_value_prop, labeled_stmt, method_prop, module_, new_expr, opt_chain_expr, paren_expr,
    private_method, private_prop, rest_pat, return_stmt, script, seq_expr, setter_prop,
    spread_element, super_prop_expr, switch_case, switch_stmt, throw_stmt, tpl, unary_expr,
    update_expr, using_decl, var_decl, var_declarator, while_stmt, with_stmt, yield_expr,
};
use swc_tree_node::{Kind, Node};

/// What is asked of a node itself, as it is found, and what of its children.
#[derive(Clone, Copy)]
pub struct Rule {
    pub holds: bool,
    pub row: Row,
}

fn ruled(holds: bool, row: Row) -> Rule
    ensures { result ≡ spec.rule holds row }
{
    Rule { holds, row }
}

// What is asked of one field, by its number, where nothing is asked of the node itself.
fn one(field: usize, ask: Ask) -> Rule
    requires { field < 256 }
    ensures { result ≡ spec.rule true (row.One field ask) }
{
    Rule {
        holds: true,
        row: Row::One(field as u8, ask),
    }
}

// The same of two fields.
fn two(first: usize, of_first: Ask, second: usize, of_second: Ask) -> Rule
    requires first { first < 256 }
    requires second { second < 256 }
    ensures { result ≡ spec.rule true (row.Two first of_first second of_second) }
{
    Rule {
        holds: true,
        row: Row::Two(first as u8, of_first, second as u8, of_second),
    }
}

// An expression of which nothing is asked, where `in` may stand.
fn any(context: Context) -> Ask
    ensures { result ≡ spec.any context }
{
    Ask::Fits(Demand::Any, context.inside())
}

// An expression of at least level 2.
fn assigned(context: Context) -> Ask
    ensures { result ≡ spec.assigned context }
{
    Ask::Fits(Demand::AtLeast(2), context)
}

fn key(context: Context) -> Ask
    ensures { result ≡ spec.key context }
{
    Ask::Part(Demand::Key, context.inside())
}

// What is no expression and of which nothing else is asked.
fn plain(context: Context) -> Ask
    ensures { result ≡ spec.plain context }
{
    Ask::Derived(context.inside())
}

// Of programs and specifiers, and of all of which nothing is asked but that its fields are derived.
#[inline(never)]
fn whole_rule(kind: Kind, fields: &[Node], context: Context) -> Rule
    ensures { result ≡ spec.whole_rule context (Node-F.Tree kind fields.now) }
{
    match kind {
        Kind::Module if fields.len() == 3 => {
            let inside = Ask::Derived(context.strictly(true));
            one(module_::BODY, inside)
        }
        Kind::Script if fields.len() == 3 => script_rule(&fields[script::BODY], context),
        Kind::ImportNamedSpecifier
        | Kind::ImportDefaultSpecifier
        | Kind::ImportStarAsSpecifier
        | Kind::NamedExport
        | Kind::ExportNamedSpecifier
        | Kind::ExportNamespaceSpecifier => ruled(true, Row::Nothing),
        _ => ruled(true, Row::Each(plain(context))),
    }
}

fn script_rule(body: &Node, context: Context) -> Rule
    ensures { result ≡ spec.script_rule context body.now }
{
    let inside = context.strictly(has_use_strict(items(body)));
    ruled(
        has_no_using(body),
        Row::One(script::BODY as u8, Ask::Derived(inside)),
    )
}

// Of loops, or what `whole_rule` says.
#[inline(never)]
fn loop_rule(kind: Kind, fields: &[Node], context: Context) -> Rule
    ensures { result ≡ spec.loop_rule context (Node-F.Tree kind fields.now) }
{
    let any = any(context);
    let body = Ask::Body(context.inside());
    match kind {
        Kind::WhileStmt if fields.len() == 3 => two(while_stmt::TEST, any, while_stmt::BODY, body),
        Kind::DoWhileStmt if fields.len() == 3 => two(
            do_while_stmt::BODY,
            body,
            do_while_stmt::TEST,
            any,
        ),
        Kind::ForStmt if fields.len() == 5 => ruled(true, for_row(context)),
        Kind::ForInStmt if fields.len() == 4 => { for_in_rule(&fields[for_in_stmt::LEFT], context) }
        Kind::ForOfStmt if fields.len() == 5 => {
            for_of_rule(
                &fields[for_of_stmt::IS_AWAIT],
                &fields[for_of_stmt::LEFT],
                context,
            )
        }
        kind => whole_rule(kind, fields, context),
    }
}

fn for_row(context: Context) -> Row
    ensures { result ≡ spec.for_row context }
{
    let first = Ask::Fits(Demand::Any, context.outside());
    let any = any(context);
    let body = Ask::Body(context.inside());
    Row::Four(
        for_stmt::INIT as u8,
        first,
        for_stmt::TEST as u8,
        any,
        for_stmt::UPDATE as u8,
        any,
        for_stmt::BODY as u8,
        body,
    )
}

fn for_in_rule(left: &Node, context: Context) -> Rule
    ensures { result ≡ spec.for_in_rule context left.now }
{
    let body = Ask::Body(context.inside());
    ruled(
        !is_using(left),
        Row::Three(
            for_in_stmt::LEFT as u8,
            Ask::Head(context),
            for_in_stmt::RIGHT as u8,
            any(context),
            for_in_stmt::BODY as u8,
            body,
        ),
    )
}

fn for_of_rule(is_await: &Node, left: &Node, context: Context) -> Rule
    ensures { result ≡ spec.for_of_rule context is_await.now left.now }
{
    let body = Ask::Body(context.inside());
    ruled(
        is_set(is_await) || !is_async_name(left),
        Row::Three(
            for_of_stmt::LEFT as u8,
            Ask::Head(context),
            for_of_stmt::RIGHT as u8,
            assigned(context.inside()),
            for_of_stmt::BODY as u8,
            body,
        ),
    )
}

// An `else` goes to the nearest `if`.
fn if_rule(cons: &Node, alt: &Node, context: Context) -> Rule
    ensures { result ≡ spec.if_rule context cons.now alt.now }
{
    let branch = Ask::Branch(context.inside());
    if is_absent(alt) {
        two(if_stmt::TEST, any(context), if_stmt::CONS, branch)
    } else {
        ruled(
            !takes_else(cons),
            Row::Three(
                if_stmt::TEST as u8,
                any(context),
                if_stmt::CONS as u8,
                branch,
                if_stmt::ALT as u8,
                branch,
            ),
        )
    }
}

// Of other statements, or what `loop_rule` says.
#[inline(never)]
fn statement_rule(kind: Kind, fields: &[Node], context: Context) -> Rule
    ensures { result ≡ spec.statement_rule context (Node-F.Tree kind fields.now) }
{
    let any = any(context);
    let plain = plain(context);
    match kind {
        Kind::ExprStmt if fields.len() == 2 => {
            let holds = may_be_statement(&fields[expr_stmt::EXPR]);
            ruled(holds, Row::One(expr_stmt::EXPR as u8, any))
        }
        Kind::ReturnStmt if fields.len() == 2 => one(return_stmt::ARG, any),
        Kind::ThrowStmt if fields.len() == 2 => one(throw_stmt::ARG, any),
        Kind::WithStmt if fields.len() == 3 => {
            let body = Ask::Body(context.inside());
            two(with_stmt::OBJ, any, with_stmt::BODY, body)
        }
        Kind::LabeledStmt if fields.len() == 3 => {
            let body = Ask::Branch(context.inside());
            one(labeled_stmt::BODY, body)
        }
        Kind::IfStmt if fields.len() == 4 => {
            if_rule(&fields[if_stmt::CONS], &fields[if_stmt::ALT], context)
        }
        Kind::SwitchStmt if fields.len() == 3 => two(
            switch_stmt::DISCRIMINANT,
            any,
            switch_stmt::CASES,
            plain,
        ),
        Kind::SwitchCase if fields.len() == 3 => {
            let holds = has_no_using(&fields[switch_case::CONS]);
            ruled(
                holds,
                Row::Two(switch_case::TEST as u8, any, switch_case::CONS as u8, plain),
            )
        }
        kind => loop_rule(kind, fields, context),
    }
}

// Of declarations and patterns, or what `statement_rule` says.
#[inline(never)]
fn pattern_rule(kind: Kind, fields: &[Node], context: Context) -> Rule
    ensures { result ≡ spec.pattern_rule context (Node-F.Tree kind fields.now) }
{
    let plain = plain(context);
    let inside = Ask::Derived(context);
    match kind {
        Kind::VarDeclarator if fields.len() == 3 => {
            let init = assigned(context);
            two(var_declarator::NAME, inside, var_declarator::INIT, init)
        }
        Kind::AssignPat if fields.len() == 3 => {
            let right = assigned(context);
            two(assign_pat::LEFT, inside, assign_pat::RIGHT, right)
        }
        Kind::AssignPatProp if fields.len() == 3 => {
            let value = assigned(context.inside());
            one(assign_pat_prop::VALUE, value)
        }
        Kind::ArrayPat | Kind::ObjectPat if fields.len() == 2 => one(array_pat::ELEMS, plain),
        Kind::RestPat if fields.len() == 2 => one(rest_pat::ARG, inside),
        Kind::KeyValuePatProp if fields.len() == 2 => two(
            key_value_pat_prop::KEY,
            key(context),
            key_value_pat_prop::VALUE,
            plain,
        ),
        kind => declaration_rule(kind, fields, context),
    }
}

// Of declarations, or what `statement_rule` says.
#[inline(never)]
fn declaration_rule(kind: Kind, fields: &[Node], context: Context) -> Rule
    ensures { result ≡ spec.declaration_rule context (Node-F.Tree kind fields.now) }
{
    let plain = plain(context);
    match kind {
        Kind::CatchClause if fields.len() == 3 => two(
            catch_clause::PARAM,
            plain,
            catch_clause::BODY,
            plain,
        ),
        Kind::ExportDecl if fields.len() == 2 => one(export_decl::DECL, plain),
        Kind::ExportDefaultExpr if fields.len() == 2 => {
            let holds = may_be_export(&fields[export_default_expr::EXPR]);
            let expr = assigned(context.inside());
            ruled(holds, Row::One(export_default_expr::EXPR as u8, expr))
        }
        Kind::VarDecl if fields.len() == 3 => one(var_decl::DECLS, Ask::Derived(context)),
        Kind::UsingDecl if fields.len() == 3 => {
            let holds = are_named(true, items(&fields[using_decl::DECLS]));
            ruled(holds, Row::One(using_decl::DECLS as u8, plain))
        }
        kind => statement_rule(kind, fields, context),
    }
}

// What is asked of the parameters and the body of a function.
fn body_row(body: &Node, context: Context) -> Row
    ensures { result ≡ spec.body_row context body.now }
{
    let inside = Ask::Derived(context.strictly(is_strict(body)));
    Row::Two(function::PARAMS as u8, inside, function::BODY as u8, inside)
}

fn getter_row(body: &Node, context: Context) -> Row
    ensures { result ≡ spec.getter_row context body.now }
{
    let inside = Ask::Derived(context.strictly(is_strict(body)));
    Row::Two(
        getter_prop::KEY as u8,
        key(context),
        getter_prop::BODY as u8,
        inside,
    )
}

fn setter_row(body: &Node, context: Context) -> Row
    ensures { result ≡ spec.setter_row context body.now }
{
    let inside = Ask::Derived(context.strictly(is_strict(body)));
    Row::Three(
        setter_prop::KEY as u8,
        key(context),
        setter_prop::PARAM as u8,
        inside,
        setter_prop::BODY as u8,
        inside,
    )
}

fn arrow_row(body: &Node, context: Context) -> Row
    ensures { result ≡ spec.arrow_row context body.now }
{
    let inside = Ask::Derived(context.strictly(is_strict(body)));
    Row::Two(
        arrow_expr::PARAMS as u8,
        inside,
        arrow_expr::BODY as u8,
        Ask::ArrowBody(context),
    )
}

fn class_row(context: Context) -> Row
    ensures { result ≡ spec.class_row context }
{
    let strict = context.strictly(true);
    Row::Two(
        class::SUPER_CLASS as u8,
        Ask::Fits(Demand::AtLeast(17), strict),
        class::BODY as u8,
        Ask::Derived(strict),
    )
}

// Of functions and classes, or what `pattern_rule` says.
#[inline(never)]
fn function_rule(kind: Kind, fields: &[Node], context: Context) -> Rule
    ensures { result ≡ spec.function_rule context (Node-F.Tree kind fields.now) }
{
    let plain = plain(context);
    match kind {
        Kind::GetterProp if fields.len() == 3 => {
            ruled(true, getter_row(&fields[getter_prop::BODY], context))
        }
        Kind::SetterProp if fields.len() == 4 => {
            ruled(true, setter_row(&fields[setter_prop::BODY], context))
        }
        Kind::ArrowExpr if fields.len() == 4 => {
            ruled(true, arrow_row(&fields[arrow_expr::BODY], context))
        }
        Kind::Function if fields.len() == 5 => {
            ruled(true, body_row(&fields[function::BODY], context))
        }
        Kind::Class if fields.len() == 3 => ruled(true, class_row(context)),
        Kind::Constructor if fields.len() == 4 => two(
            constructor::PARAMS,
            plain,
            constructor::BODY,
            plain,
        ),
        Kind::ClassMethod if fields.len() == 5 => two(
            class_method::KEY,
            key(context),
            class_method::FUNCTION,
            plain,
        ),
        Kind::PrivateMethod if fields.len() == 5 => one(private_method::FUNCTION, plain),
        kind => pattern_rule(kind, fields, context),
    }
}

// Of parts of expressions, or what `function_rule` says.
#[inline(never)]
fn part_rule(kind: Kind, fields: &[Node], context: Context) -> Rule
    ensures { result ≡ spec.part_rule context (Node-F.Tree kind fields.now) }
{
    let part = assigned(context.inside());
    let key = key(context);
    match kind {
        Kind::ExprOrSpread if fields.len() == 2 => one(expr_or_spread::EXPR, part),
        Kind::SpreadElement if fields.len() == 2 => one(spread_element::EXPR, part),
        Kind::KeyValueProp if fields.len() == 2 => two(
            key_value_prop::KEY,
            key,
            key_value_prop::VALUE,
            part,
        ),
        Kind::MethodProp if fields.len() == 2 => {
            let function = plain(context);
            two(method_prop::KEY, key, method_prop::FUNCTION, function)
        }
        Kind::ComputedPropName if fields.len() == 2 => one(computed_prop_name::EXPR, any(context)),
        Kind::ClassProp if fields.len() == 4 => two(class_prop::KEY, key, class_prop::VALUE, part),
        Kind::PrivateProp if fields.len() == 4 => one(private_prop::VALUE, part),
        kind => function_rule(kind, fields, context),
    }
}

// What is asked of what is called, tagged or has its member taken, and of what stands behind it.
fn operand_row(demand: Demand, context: Context) -> Row
    ensures { result ≡ spec.operand_row demand context }
{
    Row::Two(
        call_expr::CALLEE as u8,
        Ask::Fits(demand, context),
        call_expr::ARGS as u8,
        plain(context),
    )
}

fn new_row(args: &Node, context: Context) -> Row
    ensures { result ≡ spec.new_row context args.now }
{
    operand_row(Demand::NewCallee(is_absent(args)), context)
}

// Of members and calls, or what `part_rule` says.
#[inline(never)]
fn call_rule(kind: Kind, fields: &[Node], context: Context) -> Rule
    ensures { result ≡ spec.call_rule context (Node-F.Tree kind fields.now) }
{
    match kind {
        Kind::MemberExpr | Kind::TaggedTpl | Kind::CallExpr if fields.len() == 3 => {
            ruled(true, operand_row(Demand::Operand, context))
        }
        Kind::SuperPropExpr if fields.len() == 3 => one(super_prop_expr::PROP, plain(context)),
        Kind::Tpl if fields.len() == 3 => {
            let exprs = Ask::Each(Demand::Any, context.inside());
            one(tpl::EXPRS, exprs)
        }
        Kind::NewExpr if fields.len() == 3 => {
            ruled(true, new_row(&fields[new_expr::ARGS], context))
        }
        Kind::OptChainExpr if fields.len() == 3 => one(opt_chain_expr::BASE, Ask::Chain(context)),
        Kind::OptCall if fields.len() == 3 => ruled(true, operand_row(Demand::Link, context)),
        kind => part_rule(kind, fields, context),
    }
}

fn bin_rule(op: &Node, context: Context) -> Rule
    ensures { result ≡ spec.bin_rule context op.now }
{
    let op = word_of(op);
    let of_in = is_in(op);
    let left = Ask::Left(of_in, left_side(op), context);
    let right = Ask::Fits(right_side(op), context);
    ruled(
        context.with_in || !of_in,
        Row::Two(bin_expr::LEFT as u8, left, bin_expr::RIGHT as u8, right),
    )
}

fn cond_row(context: Context) -> Row
    ensures { result ≡ spec.cond_row context }
{
    Row::Three(
        cond_expr::TEST as u8,
        Ask::Fits(Demand::AtLeast(4), context),
        cond_expr::CONS as u8,
        assigned(context.inside()),
        cond_expr::ALT as u8,
        assigned(context),
    )
}

// Of other expressions, or what `call_rule` says.
fn rule_for(kind: Kind, fields: &[Node], context: Context) -> Rule
    ensures { result ≡ spec.rule_for context (Node-F.Tree kind fields.now) }
{
    let unary = Ask::Fits(Demand::AtLeast(15), context);
    match kind {
        Kind::ParenExpr if fields.len() == 2 => one(paren_expr::EXPR, any(context)),
        Kind::SeqExpr if fields.len() == 2 => {
            let exprs = Ask::Each(Demand::Each(2), context);
            one(seq_expr::EXPRS, exprs)
        }
        Kind::AssignExpr if fields.len() == 4 => {
            let left = Ask::Derived(context);
            let right = assigned(context);
            two(assign_expr::LEFT, left, assign_expr::RIGHT, right)
        }
        Kind::CondExpr if fields.len() == 4 => ruled(true, cond_row(context)),
        Kind::BinExpr if fields.len() == 4 => bin_rule(&fields[bin_expr::OP], context),
        Kind::UnaryExpr if fields.len() == 3 => one(unary_expr::ARG, unary),
        Kind::AwaitExpr if fields.len() == 2 => one(await_expr::ARG, unary),
        Kind::UpdateExpr if fields.len() == 4 => {
            let arg = Ask::Fits(Demand::AtLeast(17), context);
            one(update_expr::ARG, arg)
        }
        Kind::YieldExpr if fields.len() == 3 => one(yield_expr::ARG, assigned(context)),
        kind => call_rule(kind, fields, context),
    }
}

// Of the base of an optional chain.
#[inline(never)]
fn chain_rule(kind: Kind, fields: &[Node], context: Context) -> Rule
    ensures { result ≡ spec.chain_rule context (Node-F.Tree kind fields.now) }
{
    match kind {
        Kind::MemberExpr | Kind::OptCall if fields.len() == 3 => {
            ruled(true, operand_row(Demand::Link, context))
        }
        _ => ruled(false, Row::Nothing),
    }
}

/// What is asked of a tree in a context; the flag says that it is the base of an optional chain.
pub fn rule_of(in_chain: bool, kind: Kind, fields: &[Node], context: Context) -> Rule
    ensures { result ≡ spec.rule_of in_chain context (Node-F.Tree kind fields.now) }
{
    if in_chain {
        chain_rule(kind, fields, context)
    } else {
        rule_for(kind, fields, context)
    }
}
