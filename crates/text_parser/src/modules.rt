//! Imports and exports (ECMA-262, 16.2).
use crate::expressions::parse_assignment;
use crate::functions::{parse_class, parse_function};
use crate::heads::declares;
use crate::statements::parse_statement;
use crate::steps::Place;
use swc_tree_node::Kind;
use text_lexer::{Mark, Token};
use text_reader::{Expected, Keyword, Parser, is_mark};

/// The items of a module, up to the end.
pub(crate) fn parse_items(p: &mut Parser<'_>, depth: u32) {
    let before = p.count();
    for _ in 0..p.len() {
        if p.is_end() {
            break;
        }
        parse_item(p, depth);
    }
    p.list(before)
}

/// Whether an import begins here that is no expression.
fn begins_import(p: &Parser<'_>) -> bool {
    if !p.is_keyword(Keyword::Import) {
        return false;
    }
    let next = p.peek().token;
    !is_mark(next, Mark::LeftParen) && !is_mark(next, Mark::Dot)
}

fn parse_item(p: &mut Parser<'_>, depth: u32) {
    let covers = p.covers;
    if begins_import(p) {
        return parse_import(p);
    }
    if p.is_keyword(Keyword::Export) {
        parse_export(p, depth);
        return p.end_covers(covers);
    }
    parse_statement(p, depth, Place::Item)
}

/// An import (16.2.2).
fn parse_import(p: &mut Parser<'_>) {
    let (start, before) = (p.start(), p.count());
    p.advance();
    if is_string(p) {
        p.list(before);
    } else {
        parse_clause(p);
        p.expect_keyword(Keyword::From);
    }
    push_origin(p);
    p.end_statement();
    p.build(Kind::ImportDecl, start, before)
}

fn is_string(p: &Parser<'_>) -> bool {
    matches!(p.token(), Token::Str(_))
}

/// What an import binds.
fn parse_clause(p: &mut Parser<'_>) {
    let before = p.count();
    let mut has_more = true;
    if p.is_name() {
        let (start, specifier) = (p.start(), p.count());
        p.push_name(Kind::Ident);
        p.build(Kind::ImportDefaultSpecifier, start, specifier);
        has_more = p.take(Mark::Comma);
    }
    if has_more {
        parse_imported(p);
    }
    p.list(before)
}

fn parse_imported(p: &mut Parser<'_>) {
    let (start, before) = (p.start(), p.count());
    if p.take(Mark::Mul) {
        p.expect_keyword(Keyword::As);
        p.push_name(Kind::Ident);
        return p.build(Kind::ImportStarAsSpecifier, start, before);
    }
    p.expect(Mark::LeftBrace);
    for _ in 0..p.len() {
        if p.is_mark(Mark::RightBrace) {
            break;
        }
        parse_import_specifier(p);
        if !p.take(Mark::Comma) {
            break;
        }
    }
    p.expect(Mark::RightBrace)
}

/// Whether a name here is given another behind it.
fn is_renamed(p: &Parser<'_>) -> bool {
    p.peek().keyword == Some(Keyword::As)
}

fn parse_import_specifier(p: &mut Parser<'_>) {
    let (start, before) = (p.start(), p.count());
    if is_renamed(p) {
        push_module_name(p);
        p.advance();
        p.push_name(Kind::Ident);
        p.swap();
    } else {
        p.push_name(Kind::Ident);
        p.push_absent();
    }
    p.build(Kind::ImportNamedSpecifier, start, before)
}

/// A name of another module, of any word, or a string (16.2.1).
fn push_module_name(p: &mut Parser<'_>) {
    if is_string(p) {
        p.push_string();
    } else {
        p.push_any_name();
    }
}

/// Where an import or an export has its items from, with its attributes.
fn push_origin(p: &mut Parser<'_>) {
    p.push_string();
    if !p.take_keyword(Keyword::With) {
        return p.push_absent();
    }
    p.expect(Mark::LeftBrace);
    let before = p.count();
    for _ in 0..p.len() {
        if p.is_mark(Mark::RightBrace) {
            break;
        }
        push_attribute(p);
        if !p.take(Mark::Comma) {
            break;
        }
    }
    p.expect(Mark::RightBrace);
    p.list(before)
}

fn push_attribute(p: &mut Parser<'_>) {
    let before = p.count();
    if is_string(p) {
        p.push_string_value();
    } else {
        p.push_key_text();
    }
    p.expect(Mark::Colon);
    p.push_string_value();
    p.list(before)
}

/// An export (16.2.3).
fn parse_export(p: &mut Parser<'_>, depth: u32) {
    let (start, before) = (p.start(), p.count());
    p.advance();
    if p.take_keyword(Keyword::Default) {
        return parse_default(p, depth, start);
    }
    if p.take(Mark::Mul) {
        return parse_export_all(p, start);
    }
    if p.is_mark(Mark::LeftBrace) {
        return parse_export_list(p, start);
    }
    if !begins_declaration(p) {
        return p.unexpected(Expected::Statement);
    }
    parse_statement(p, depth, Place::Item);
    p.build(Kind::ExportDecl, start, before)
}

fn begins_declaration(p: &Parser<'_>) -> bool {
    match p.keyword() {
        Some(Keyword::Var | Keyword::Const | Keyword::Function | Keyword::Class) => true,
        Some(Keyword::Let) => declares(p, false),
        Some(Keyword::Async) => begins_async_function(p),
        _ => false,
    }
}

fn begins_async_function(p: &Parser<'_>) -> bool {
    let next = p.peek();
    p.is_keyword(Keyword::Async) && !next.ended && next.keyword == Some(Keyword::Function)
}

fn parse_default(p: &mut Parser<'_>, depth: u32, start: usize) {
    let (item, before) = (p.start(), p.count());
    let is_async = begins_async_function(p);
    if is_async {
        p.advance();
    }
    if p.is_keyword(Keyword::Function) {
        parse_function(p, depth, item, is_async, Kind::FnExpr, false);
        return p.build(Kind::ExportDefaultDecl, start, before);
    }
    if p.is_keyword(Keyword::Class) {
        parse_class(p, depth, Kind::ClassExpr);
        return p.build(Kind::ExportDefaultDecl, start, before);
    }
    parse_assignment(p, depth);
    p.end_statement();
    p.build(Kind::ExportDefaultExpr, start, before)
}

/// All that another module exports, or the whole of it under a name, behind the star.
fn parse_export_all(p: &mut Parser<'_>, start: usize) {
    let before = p.count();
    let is_named = p.take_keyword(Keyword::As);
    if is_named {
        let (name, specifier) = (p.start(), p.count());
        push_module_name(p);
        p.build(Kind::ExportNamespaceSpecifier, name, specifier);
        p.list(before);
    }
    p.expect_keyword(Keyword::From);
    push_origin(p);
    p.end_statement();
    let kind = if is_named {
        Kind::NamedExport
    } else {
        Kind::ExportAll
    };
    p.build(kind, start, before)
}

/// A list of names that are exported, of this module or of another.
fn parse_export_list(p: &mut Parser<'_>, start: usize) {
    let before = p.count();
    p.advance();
    let mut foreign = None;
    for _ in 0..p.len() {
        if p.is_mark(Mark::RightBrace) {
            break;
        }
        let specifier = p.start();
        if !parse_export_specifier(p) {
            foreign = Some(specifier);
        }
        if !p.take(Mark::Comma) {
            break;
        }
    }
    p.expect(Mark::RightBrace);
    p.list(before);
    if p.take_keyword(Keyword::From) {
        push_origin(p);
    } else if let Some(at) = foreign {
        return p.unexpected_at(at, Expected::Name);
    } else {
        p.push_absent();
        p.push_absent();
    }
    p.end_statement();
    p.build(Kind::NamedExport, start, before)
}

/// A name that is exported: whether a name of the program may be called so.
fn parse_export_specifier(p: &mut Parser<'_>) -> bool {
    let (start, before) = (p.start(), p.count());
    push_module_name(p);
    let is_name = p.is_last_name();
    if p.take_keyword(Keyword::As) {
        push_module_name(p);
    } else {
        p.push_absent();
    }
    p.build(Kind::ExportNamedSpecifier, start, before);
    is_name
}
