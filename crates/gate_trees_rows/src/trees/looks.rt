//! What is seen of an opened tree, and what is done with it.
use std::alloc::Global;
use std::fmt::Write;
use std::hash::{DefaultHasher, Hash, Hasher};
use swc_tree::class::Syntax;
use swc_tree::{
    ArrayPat, AsOptExpr, BlockStmt, Expr, ExprRefExt, Holes, Ident, ImportDecl, ObjectPatProp,
    Pairs, Pat, PropName, Stmt, Trees, VarDeclarator, find_pat_ids, is_use_strict, prepend_stmts,
};
use swc_tree_node::name_of;

/// Says what is seen of an opened tree, and changes it where it can be changed. Nothing, where memory is refused.
pub trait Look {
    fn look(&mut self, alloc: Global, text: &mut String) -> Option<()>;
}

fn hash_of<T: Hash>(value: &T) -> u64 {
    let mut hasher = DefaultHasher::new();
    value.hash(&mut hasher);
    hasher.finish()
}

// Whether an identifier is equal to another, and all its parts hash equally.
fn are_as_one(one: &Ident, other: &Ident) -> bool {
    one == other
        && hash_of(one) == hash_of(other)
        && hash_of(&one.ctxt) == hash_of(&other.ctxt)
        && hash_of(&one.sym) == hash_of(&other.sym)
        && hash_of(&one.span) == hash_of(&other.span)
}

// Says the text and the last mark of an identifier, and whether a copy is as it is.
fn add_name(text: &mut String, ident: &Ident) -> Option<()> {
    let copy = ident.clone().ok()?;
    let (name, mark, is_copy) = (
        &ident.sym,
        ident.ctxt.outer().as_u32(),
        are_as_one(ident, &copy),
    );
    write!(text, "{name} of mark {mark} {is_copy}, ").ok()
}

impl Look for Expr {
    fn look(&mut self, _alloc: Global, text: &mut String) -> Option<()> {
        match self.as_ident() {
            Some(ident) => add_name(text, ident),
            None => text.push_str("no name, ").ok(),
        }
    }
}

impl Look for Stmt {
    fn look(&mut self, _alloc: Global, text: &mut String) -> Option<()> {
        let is_use_strict = is_use_strict(self);
        write!(text, "strict {is_use_strict}, ").ok()
    }
}

impl Look for Pat {
    fn look(&mut self, alloc: Global, text: &mut String) -> Option<()> {
        for id in find_pat_ids(alloc, self).ok()? {
            write!(text, "{}, ", id.0).ok()?;
        }
        Some(())
    }
}

impl Look for ObjectPatProp {
    fn look(&mut self, _alloc: Global, _text: &mut String) -> Option<()> {
        Some(())
    }
}

impl Look for PropName {
    fn look(&mut self, _alloc: Global, _text: &mut String) -> Option<()> {
        Some(())
    }
}

impl Look for VarDeclarator {
    fn look(&mut self, _alloc: Global, _text: &mut String) -> Option<()> {
        Some(())
    }
}

// Puts a copy of statements after the leading directives.
impl Look for BlockStmt {
    fn look(&mut self, _alloc: Global, _text: &mut String) -> Option<()> {
        let copy = self.stmts.clone().ok()?;
        prepend_stmts(&mut self.stmts, copy).ok()?;
        swap(&mut self.stmts)
    }
}

impl Look for ArrayPat {
    fn look(&mut self, _alloc: Global, _text: &mut String) -> Option<()> {
        swap_holes(&mut self.elems)
    }
}

impl Look for ImportDecl {
    fn look(&mut self, alloc: Global, _text: &mut String) -> Option<()> {
        match &mut self.with_ {
            Some(pairs) => turn_pair(alloc, pairs),
            None => Some(()),
        }
    }
}

// Swaps the first tree and the last.
fn swap<C: Syntax>(trees: &mut Trees<C>) -> Option<()> {
    let last = trees.pop()?;
    let tree = if 0 < trees.len() {
        trees.replace(0, last)
    } else {
        last
    };
    trees.push(tree).ok()
}

fn swap_holes<C: Syntax>(trees: &mut Holes<C>) -> Option<()> {
    let last = trees.pop()?;
    let tree = if 0 < trees.len() {
        trees.replace(0, last)
    } else {
        last
    };
    trees.push(tree).ok()
}

// Turns the last pair round.
fn turn_pair(alloc: Global, pairs: &mut Pairs) -> Option<()> {
    let (key, value) = pairs.pop()?;
    pairs.push(alloc, value, key).ok()
}

/// Puts a copy of the expression that is held in its place, and says of which kind it is, if there is one.
pub fn called<N: AsOptExpr>(holder: &mut N) -> Option<&'static str> {
    if let Some(held) = holder.as_expr_mut() {
        let copy = held.clone().ok()?;
        *held = copy;
    }
    match holder.as_expr() {
        Some(held) => Some(name_of(held.kind())),
        None => Some("nothing"),
    }
}
