//! What is asked of a node, and what of each of its fields.
ghost use Rattle.std.specs.Prelude.{◌≡◌, ◌<◌, ◌||◌, length, nat_eq, nat_le, not, suc};
ghost use Rattle.std.specs.List.{list_all};
ghost use Rattle.swc_tree_node.specs.declared.node.Node.{out-Node};
ghost use Rattle.swc_tree_node.specs.declared.node.Node.TheOpen.{Node-F};
ghost use Rattle.swc_tree_grammar.specs.Kinds.{has_kind, is_private_name};
ghost use Rattle.swc_tree_grammar.specs.Levels.{is_in, word_of as word_of_field};
ghost use Rattle.swc_tree_grammar.specs.Shapes.{items_of};
ghost use Rattle.swc_tree_grammar.specs.Writable.{local_specifier_in};
ghost use Rattle.swc_base_writable_rules.specs.Rounds.{binding};
ghost use Rattle.swc_base_writable_rules.specs.declared.ask.Ask.TheVariants as ask;
ghost use Rattle.swc_base_writable_rules.specs.declared.ask.Row.TheVariants as row;
ghost use Rattle.swc_base_writable_rules.specs.Rules.{body_row as body_row_of, branches as branches_of, catch_rule as catch_rule_of, declaration_rule as declaration_rule_of, for_row as for_row_of, function_rule as function_rule_of, head_rule as head_rule_of, loop_rule as loop_rule_of, member_rule as member_rule_of, pattern_rule as pattern_rule_of, rule as rule_with, rule_for as rule_for_of, rule_of as rule_by, script_rule as script_rule_of, setter_rule as setter_rule_of, statement_rule as statement_rule_of, whole_rule as whole_rule_of};

use crate::ask::{Ask, Row};
use crate::members::{goes_on, is_accessor, is_constructor_key, is_local};
use crate::names::is_bound_name;
use crate::patterns::{
    are_elements, is_absent, is_left_side, is_part, is_pattern, is_private, items, word_of,
};
use crate::round::Round;
use crate::statements::{
    are_initialised, are_named, has_no_using, has_use_strict, is_one_bare, is_set, is_strict,
    is_string, is_string_within, is_using,
};
use swc_base_fixer_unparen::is_target;
use swc_tree_node::fields::{
    array_pat, arrow_expr, assign_expr, assign_pat, assign_pat_prop as shorthand_pat, bin_expr,
    catch_clause, class, class_method, constructor, do_while_stmt, export_decl,
    export_named_specifier, expr_stmt, fn_decl, for_in_stmt, for_of_stmt, for_stmt, function,
    getter_prop, if_stmt, import_named_specifier, key_value_pat_prop as pair_pat, labeled_stmt,
    member_expr, module_, named_export, opt_chain_expr, private_prop, rest_pat, script, seq_expr,
    setter_prop, switch_case, tpl, update_expr, using_decl, var_decl, var_declarator, while_stmt,
    with_stmt,
};
use swc_tree_node::{Kind, Node, Word};

/// What is asked of a node itself, as it is found, and what of its children.
#[derive(Clone, Copy)]
pub struct Rule {
    pub holds: bool,
    pub row: Row,
}

fn ruled(holds: bool, row: Row) -> Rule
    ensures { result ≡ rule_with holds row }
{
    Rule { holds, row }
}

// What is asked of one field, by its number, beside what is asked of the node itself.
fn one(holds: bool, field: usize, ask: Ask) -> Rule
    requires { field < 256 }
    ensures { result ≡ rule_with holds (row.One field ask) }
{
    let row = Row::One(field as u8, ask);
    Rule { holds, row }
}

// The same of two fields.
fn two(holds: bool, first: usize, of_first: Ask, second: usize, of_second: Ask) -> Rule
    requires first { first < 256 }
    requires second { second < 256 }
    ensures { result ≡ rule_with holds (row.Two first of_first second of_second) }
{
    let row = Row::Two(first as u8, of_first, second as u8, of_second);
    Rule { holds, row }
}

// Whether a list has two items or more.
fn has_two(node: &Node) -> bool
    ensures { result ≡ nat_le 2 (length (items_of node.now)) }
{
    2 <= items(node).len()
}

// Whether a template has one text more than expressions.
fn has_each_text(exprs: &Node, quasis: &Node) -> bool
    ensures { result ≡ nat_eq (length (items_of quasis.now)) (suc (length (items_of exprs.now))) }
{
    let exprs = items(exprs).len();
    let quasis = items(quasis).len();
    0 < quasis && quasis - 1 == exprs
}

// Whether something may stand left of an operator: a private name only left of `in`.
fn is_left_operand(op: &Node, left: &Node) -> bool
    ensures { result ≡ (is_in (word_of_field op.now) || not (has_kind is_private_name left.now)) }
{
    matches!(word_of(op), Some(Word::In)) || !is_private(left)
}

// Whether the names in an export list are those of the program.
fn are_local(specifiers: &Node) -> bool
    ensures { result ≡ list_all (λ t. local_specifier_in (out-Node t)) (items_of specifiers.now) }
{
    items(specifiers)
        .iter()
        .all(|specifier| is_local(specifier))
}

// Of imports, exports and programs, and of all of which no more is asked than that its fields are sound and no private names.
#[inline(never)]
fn whole_rule(kind: Kind, fields: &[Node], round: Round) -> Rule
    ensures { result ≡ whole_rule_of round (Node-F.Tree kind fields.now) }
{
    match kind {
        Kind::ImportNamedSpecifier if fields.len() == 3 => {
            let local = &fields[import_named_specifier::LOCAL];
            ruled(is_bound_name(round.strict, local), Row::Nothing)
        }
        Kind::ImportDefaultSpecifier | Kind::ImportStarAsSpecifier if fields.len() == 2 => {
            let local = &fields[import_named_specifier::LOCAL];
            ruled(is_bound_name(round.strict, local), Row::Nothing)
        }
        Kind::NamedExport if fields.len() == 4 => {
            if is_absent(&fields[named_export::SRC]) {
                let holds = are_local(&fields[named_export::SPECIFIERS]);
                one(holds, named_export::SPECIFIERS, Ask::Sound(round))
            } else {
                ruled(true, Row::Nothing)
            }
        }
        Kind::ExportNamedSpecifier if fields.len() == 3 => {
            one(true, export_named_specifier::ORIG, Ask::Sound(round))
        }
        Kind::ExportNamespaceSpecifier => ruled(true, Row::Nothing),
        Kind::ExportDecl if fields.len() == 2 => {
            let holds = !is_using(&fields[export_decl::DECL]);
            one(holds, export_decl::DECL, Ask::Sound(round))
        }
        Kind::Module if fields.len() == 3 => {
            one(true, module_::BODY, Ask::Sound(round.strictly(true)))
        }
        Kind::Script if fields.len() == 3 => script_rule(&fields[script::BODY], round),
        Kind::TsInterfaceDecl | Kind::TsTypeAliasDecl | Kind::TsEnumDecl | Kind::TsModuleDecl =>
            ruled(false, Row::Nothing),
        _ => ruled(true, Row::Each(Ask::Part(round.binding()))),
    }
}

fn script_rule(body: &Node, round: Round) -> Rule
    ensures { result ≡ script_rule_of round body.now }
{
    let inside = round.strictly(has_use_strict(items(body)));
    one(has_no_using(body), script::BODY, Ask::Sound(inside))
}

// Of statements, or what `whole_rule` says.
#[inline(never)]
fn statement_rule(kind: Kind, fields: &[Node], round: Round) -> Rule
    ensures { result ≡ statement_rule_of round (Node-F.Tree kind fields.now) }
{
    let part = Ask::Part(round.binding());
    match kind {
        Kind::ExprStmt if fields.len() == 2 => {
            let expr = &fields[expr_stmt::EXPR];
            let holds = !is_string_within(expr) || is_string(expr);
            one(holds, expr_stmt::EXPR, part)
        }
        Kind::CatchClause if fields.len() == 3 => catch_rule(&fields[catch_clause::PARAM], round),
        Kind::WithStmt if fields.len() == 3 => {
            let body = Ask::Body(round);
            two(true, with_stmt::OBJ, part, with_stmt::BODY, body)
        }
        Kind::LabeledStmt if fields.len() == 3 => {
            let label = Ask::Sound(round);
            let body = Ask::Branch(round);
            two(true, labeled_stmt::LABEL, label, labeled_stmt::BODY, body)
        }
        Kind::IfStmt if fields.len() == 4 => ruled(true, branches(round)),
        Kind::SwitchCase if fields.len() == 3 => {
            let consequent = Ask::Consequent(round);
            two(true, switch_case::TEST, part, switch_case::CONS, consequent)
        }
        kind => loop_rule(kind, fields, round),
    }
}

fn catch_rule(param: &Node, round: Round) -> Rule
    ensures { result ≡ catch_rule_of round param.now }
{
    let holds = is_absent(param) || is_pattern(param, round.binding());
    two(
        holds,
        catch_clause::PARAM,
        Ask::Sound(round.binding()),
        catch_clause::BODY,
        Ask::Sound(round),
    )
}

// What is asked of the fields of an `if`.
fn branches(round: Round) -> Row
    ensures { result ≡ branches_of round }
{
    Row::Three(
        if_stmt::TEST as u8,
        Ask::Part(round.binding()),
        if_stmt::CONS as u8,
        Ask::Branch(round),
        if_stmt::ALT as u8,
        Ask::BranchIfThere(round),
    )
}

// What is asked of the fields of a `for` with three parts in its head.
fn for_row(round: Round) -> Row
    ensures { result ≡ for_row_of round }
{
    let part = Ask::Part(round.binding());
    Row::Four(
        for_stmt::INIT as u8,
        part,
        for_stmt::TEST as u8,
        part,
        for_stmt::UPDATE as u8,
        part,
        for_stmt::BODY as u8,
        Ask::Body(round),
    )
}

// What is asked of the head and the body of a `for` in or of, by the numbers of the fields.
fn over_row(left: usize, right: usize, body: usize, round: Round) -> Row
    requires left { left < 256 }
    requires right { right < 256 }
    requires body { body < 256 }
    ensures { result ≡ row.Three left (ask.Head round) right (ask.Part (binding round)) body (ask.Body round) }
{
    Row::Three(
        left as u8,
        Ask::Head(round),
        right as u8,
        Ask::Part(round.binding()),
        body as u8,
        Ask::Body(round),
    )
}

// Of loops, or what `whole_rule` says.
#[inline(never)]
fn loop_rule(kind: Kind, fields: &[Node], round: Round) -> Rule
    ensures { result ≡ loop_rule_of round (Node-F.Tree kind fields.now) }
{
    let part = Ask::Part(round.binding());
    let body = Ask::Body(round);
    match kind {
        Kind::WhileStmt if fields.len() == 3 => {
            two(true, while_stmt::TEST, part, while_stmt::BODY, body)
        }
        Kind::DoWhileStmt if fields.len() == 3 => {
            two(true, do_while_stmt::BODY, body, do_while_stmt::TEST, part)
        }
        Kind::ForStmt if fields.len() == 5 => ruled(true, for_row(round)),
        Kind::ForInStmt if fields.len() == 4 => {
            let left = &fields[for_in_stmt::LEFT];
            let row = over_row(
                for_in_stmt::LEFT,
                for_in_stmt::RIGHT,
                for_in_stmt::BODY,
                round,
            );
            ruled(!is_using(left), row)
        }
        Kind::ForOfStmt if fields.len() == 5 => {
            let row = over_row(
                for_of_stmt::LEFT,
                for_of_stmt::RIGHT,
                for_of_stmt::BODY,
                round,
            );
            ruled(true, row)
        }
        kind => whole_rule(kind, fields, round),
    }
}

// What is asked of the parameters and the body of a function.
fn body_row(body: &Node, round: Round) -> Row
    ensures { result ≡ body_row_of round body.now }
{
    let inside = Ask::Part(round.strictly(is_strict(body)));
    Row::Two(function::PARAMS as u8, inside, function::BODY as u8, inside)
}

fn setter_rule(param: &Node, body: &Node, round: Round) -> Rule
    ensures { result ≡ setter_rule_of round param.now body.now }
{
    let inside = Ask::Part(round.strictly(is_strict(body)));
    ruled(
        is_part(param, round.binding()),
        Row::Three(
            setter_prop::KEY as u8,
            Ask::Part(round.binding()),
            setter_prop::PARAM as u8,
            inside,
            setter_prop::BODY as u8,
            inside,
        ),
    )
}

// Of functions and what has the parameters and the body of one, or what `statement_rule` says.
#[inline(never)]
fn function_rule(kind: Kind, fields: &[Node], round: Round) -> Rule
    ensures { result ≡ function_rule_of round (Node-F.Tree kind fields.now) }
{
    let part = Ask::Part(round.binding());
    match kind {
        Kind::ArrowExpr if fields.len() == 4 => {
            let params = items(&fields[arrow_expr::PARAMS]);
            let row = body_row(&fields[arrow_expr::BODY], round);
            ruled(are_elements(round.binding(), params), row)
        }
        Kind::Function if fields.len() == 5 => {
            let params = items(&fields[function::PARAMS]);
            let row = body_row(&fields[function::BODY], round);
            ruled(are_elements(round.binding(), params), row)
        }
        Kind::Constructor if fields.len() == 4 => {
            let params = items(&fields[constructor::PARAMS]);
            let key = &fields[constructor::KEY];
            let holds = is_constructor_key(key) && are_elements(round.binding(), params);
            two(holds, constructor::PARAMS, part, constructor::BODY, part)
        }
        Kind::GetterProp if fields.len() == 3 => {
            let body = Ask::Part(round.strictly(is_strict(&fields[getter_prop::BODY])));
            two(true, getter_prop::KEY, part, getter_prop::BODY, body)
        }
        Kind::SetterProp if fields.len() == 4 => {
            let param = &fields[setter_prop::PARAM];
            setter_rule(param, &fields[setter_prop::BODY], round)
        }
        kind => statement_rule(kind, fields, round),
    }
}

// Of classes, their members, and what has a name of its own, or what `function_rule` says.
#[inline(never)]
fn member_rule(kind: Kind, fields: &[Node], round: Round) -> Rule
    ensures { result ≡ member_rule_of round (Node-F.Tree kind fields.now) }
{
    let inside = Ask::Sound(round);
    match kind {
        Kind::ClassMethod if fields.len() == 5 => {
            let key = Ask::Sound(round.binding());
            let holds = is_accessor(&fields[class_method::FUNCTION], &fields[class_method::KIND]);
            two(
                holds,
                class_method::KEY,
                key,
                class_method::FUNCTION,
                inside,
            )
        }
        Kind::PrivateMethod if fields.len() == 5 => {
            let holds = is_accessor(&fields[class_method::FUNCTION], &fields[class_method::KIND]);
            one(holds, class_method::FUNCTION, inside)
        }
        Kind::PrivateProp if fields.len() == 4 => {
            one(true, private_prop::VALUE, Ask::Part(round.binding()))
        }
        Kind::Class if fields.len() == 3 => {
            let part = Ask::Part(round.strictly(true));
            two(true, class::SUPER_CLASS, part, class::BODY, part)
        }
        Kind::FnDecl | Kind::FnExpr if fields.len() == 2 => {
            let name = &fields[fn_decl::IDENT];
            one(is_bound_name(round.strict, name), fn_decl::FUNCTION, inside)
        }
        Kind::ClassDecl | Kind::ClassExpr if fields.len() == 2 => {
            let name = &fields[fn_decl::IDENT];
            one(is_bound_name(true, name), fn_decl::FUNCTION, inside)
        }
        kind => function_rule(kind, fields, round),
    }
}

// Of patterns and declarations, or what `member_rule` says.
#[inline(never)]
fn pattern_rule(kind: Kind, fields: &[Node], round: Round) -> Rule
    ensures { result ≡ pattern_rule_of round (Node-F.Tree kind fields.now) }
{
    let inside = Ask::Sound(round);
    let part = Ask::Part(round.binding());
    match kind {
        Kind::ArrayPat | Kind::ObjectPat if fields.len() == 2 => {
            let elems = items(&fields[array_pat::ELEMS]);
            one(are_elements(round, elems), array_pat::ELEMS, inside)
        }
        Kind::RestPat if fields.len() == 2 => {
            let holds = is_pattern(&fields[rest_pat::ARG], round);
            one(holds, rest_pat::ARG, inside)
        }
        Kind::KeyValuePatProp if fields.len() == 2 => {
            let key = Ask::Sound(round.binding());
            let holds = is_part(&fields[pair_pat::VALUE], round);
            two(holds, pair_pat::KEY, key, pair_pat::VALUE, inside)
        }
        Kind::AssignPat if fields.len() == 3 => {
            let holds = is_pattern(&fields[assign_pat::LEFT], round);
            two(holds, assign_pat::LEFT, inside, assign_pat::RIGHT, part)
        }
        Kind::AssignPatProp if fields.len() == 3 => {
            two(true, shorthand_pat::KEY, inside, shorthand_pat::VALUE, part)
        }
        kind => declaration_rule(kind, fields, round),
    }
}

// Of declarations, or what `member_rule` says.
#[inline(never)]
fn declaration_rule(kind: Kind, fields: &[Node], round: Round) -> Rule
    ensures { result ≡ declaration_rule_of round (Node-F.Tree kind fields.now) }
{
    let inside = Ask::Sound(round);
    let part = Ask::Part(round.binding());
    match kind {
        Kind::VarDeclarator if fields.len() == 3 => {
            let name = Ask::Sound(round.binding());
            let holds = is_pattern(&fields[var_declarator::NAME], round.binding());
            two(
                holds,
                var_declarator::NAME,
                name,
                var_declarator::INIT,
                part,
            )
        }
        Kind::VarDecl if fields.len() == 3 => {
            let holds = are_initialised(&fields[var_decl::KIND], &fields[var_decl::DECLS]);
            one(holds, var_decl::DECLS, inside)
        }
        Kind::UsingDecl if fields.len() == 3 => {
            let declarators = items(&fields[using_decl::DECLS]);
            one(are_named(true, declarators), using_decl::DECLS, inside)
        }
        kind => member_rule(kind, fields, round),
    }
}

// Of expressions, or what `pattern_rule` says.
fn rule_for(kind: Kind, fields: &[Node], round: Round) -> Rule
    ensures { result ≡ rule_for_of round (Node-F.Tree kind fields.now) }
{
    let inside = Ask::Sound(round.binding());
    let part = Ask::Part(round.binding());
    match kind {
        Kind::SeqExpr if fields.len() == 2 => {
            let holds = has_two(&fields[seq_expr::EXPRS]);
            one(holds, seq_expr::EXPRS, Ask::Sound(round))
        }
        Kind::AssignExpr if fields.len() == 4 => {
            let left = Ask::Sound(round.assigning());
            let op = word_of(&fields[assign_expr::OP]);
            let holds = is_left_side(op, &fields[assign_expr::LEFT]);
            two(holds, assign_expr::LEFT, left, assign_expr::RIGHT, part)
        }
        Kind::UpdateExpr if fields.len() == 4 => {
            let holds = is_target(&fields[update_expr::ARG]);
            one(holds, update_expr::ARG, inside)
        }
        Kind::BinExpr if fields.len() == 4 => {
            let holds = is_left_operand(&fields[bin_expr::OP], &fields[bin_expr::LEFT]);
            two(holds, bin_expr::LEFT, inside, bin_expr::RIGHT, part)
        }
        Kind::MemberExpr if fields.len() == 3 => {
            let holds = !is_private(&fields[member_expr::OBJ]);
            two(holds, member_expr::OBJ, inside, member_expr::PROP, inside)
        }
        Kind::Tpl if fields.len() == 3 => {
            let holds = has_each_text(&fields[tpl::EXPRS], &fields[tpl::QUASIS]);
            one(holds, tpl::EXPRS, inside)
        }
        Kind::OptChainExpr if fields.len() == 3 => {
            let holds = is_set(&fields[opt_chain_expr::OPTIONAL])
                || goes_on(&fields[opt_chain_expr::BASE]);
            one(holds, opt_chain_expr::BASE, inside)
        }
        kind => pattern_rule(kind, fields, round),
    }
}

// Of a declaration in the head of a `for` in or of.
#[inline(never)]
fn head_rule(kind: Kind, fields: &[Node], round: Round) -> Rule
    ensures { result ≡ head_rule_of round (Node-F.Tree kind fields.now) }
{
    match kind {
        Kind::VarDecl if fields.len() == 3 => {
            let declarators = items(&fields[var_decl::DECLS]);
            let holds = is_one_bare(declarators);
            one(holds, var_decl::DECLS, Ask::Sound(round.binding()))
        }
        Kind::UsingDecl if fields.len() == 3 => {
            let declarators = items(&fields[using_decl::DECLS]);
            let holds = is_one_bare(declarators) && are_named(false, declarators);
            one(holds, using_decl::DECLS, Ask::Sound(round.binding()))
        }
        _ => ruled(false, Row::Nothing),
    }
}

/// What is asked of a tree in a round; the flag says that it is the declaration in the head of a `for` in or of.
pub fn rule_of(in_head: bool, kind: Kind, fields: &[Node], round: Round) -> Rule
    ensures { result ≡ rule_by in_head round (Node-F.Tree kind fields.now) }
{
    if in_head {
        head_rule(kind, fields, round)
    } else {
        rule_for(kind, fields, round)
    }
}
