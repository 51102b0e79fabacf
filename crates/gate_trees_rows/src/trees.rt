//! Rows of trees: the input is a tree of the class that a word names.
//!
//! `tree` copies it, opens it one level deep, looks at it or changes it, closes it and writes it: what is wanted is what was
//! seen, and the tree. `fields` says what the fields of the node are, `callee` what is called, and `debug` writes the node as it
//! is shown.
mod fields;
mod looks;

ghost use Rattle.std.specs.Prelude.{◌≡◌, IfSome};
ghost use Rattle.swc_tree_node.specs.declared.slot.Slot.TheVariants.{One};
ghost use Rattle.swc_tree_node.specs.declared.slot.Content.TheVariants.{Node as Of};
ghost use Rattle.swc_tree_node.specs.Fits.{Fits};

use jsbase_reader::read;
use jsbase_writer::write;
use json::{Scratch, Value};
use looks::Look;
use std::alloc::Global;
use std::fmt::Write;
use swc_tree::class::Syntax;
use swc_tree::{
    ArrayPat, BlockStmt, Callee, Expr, Globals, ImportDecl, ObjectPatProp, Opened, Pat, PropName,
    Stmt, Tree, VarDeclarator, class,
};
use swc_tree_node::{Class, Content, Node, Slot};

// The marks that contexts may have.
const MARKS: [(u32, u32); 3] = [(1, 0), (2, 1), (3, 2)];

// The node of a class that a text is.
fn node(alloc: Global, class: Class, text: &str) -> Option<Node>
    ensures { IfSome result (λ node. Fits node (One (Of class))) }
{
    let globals = Globals::from_table(alloc, &MARKS).ok()?;
    let mut scratch = Scratch::new(alloc);
    let value = Value::parse(alloc, text, &mut scratch).ok()?;
    read(alloc, &globals, &value, Slot::One(Content::Node(class))).ok()
}

// The tree of a class that a text is, if it is equal to its copy.
fn copied<C: Syntax>(alloc: Global, class: Class, text: &str) -> Option<Tree<C>>
    requires { class ≡ C.class }
{
    let tree: Tree<C> = Tree::from_node(node(alloc, class, text)?);
    let copy = tree.clone().ok()?;
    if copy == tree { Some(copy) } else { None }
}

// What is seen of an opened tree, and the tree that is left, written. It is always closed, since to let it go would need a
// proof for each type of the tree.
fn seen<C: Syntax, T: Opened<C> + Look>(alloc: Global, mut opened: T) -> Option<String>
    requires { T.class ≡ C.class }
{
    let mut text = String::new(alloc);
    let looked = opened.look(alloc, &mut text);
    let closed: Tree<C> = opened.close(alloc).ok()?;
    let written = write(alloc, closed.node()).ok();
    looked?;
    text.push_str(written?.as_str()).ok()?;
    Some(text)
}

fn of_tree<C: Syntax, T: Opened<C> + Look>(
    alloc: Global,
    class: Class,
    text: &str,
) -> Option<String>
where
    requires class { class ≡ C.class }
    requires opened { T.class ≡ C.class }
{
    let tree: Tree<C> = copied(alloc, class, text)?;
    seen::<C, T>(alloc, tree.open())
}

fn opened(alloc: Global, class: &str, text: &str) -> Option<String> {
    match class {
        "expr" => of_tree::<class::Expr, Expr>(alloc, Class::Expr, text),
        "stmt" => of_tree::<class::Stmt, Stmt>(alloc, Class::Stmt, text),
        "pat" => of_tree::<class::Pat, Pat>(alloc, Class::Pat, text),
        "property" => {
            of_tree::<class::ObjectPatProp, ObjectPatProp>(alloc, Class::ObjectPatProp, text)
        }
        "key" => of_tree::<class::PropName, PropName>(alloc, Class::PropName, text),
        "declarator" => {
            of_tree::<class::VarDeclarator, VarDeclarator>(alloc, Class::VarDeclarator, text)
        }
        "block" => of_tree::<class::BlockStmt, BlockStmt>(alloc, Class::BlockStmt, text),
        "array" => of_tree::<class::ArrayPat, ArrayPat>(alloc, Class::ArrayPat, text),
        "import" => of_tree::<class::ImportDecl, ImportDecl>(alloc, Class::ImportDecl, text),
        _ => None,
    }
}

fn shown(alloc: Global, text: &str) -> Option<String> {
    let tree: Tree<class::Expr> = Tree::from_node(node(alloc, Class::Expr, text)?);
    format!(in alloc; "{tree:?}").ok()
}

fn called(alloc: Global, text: &str) -> Option<String> {
    let tree: Tree<class::Callee> = Tree::from_node(node(alloc, Class::Callee, text)?);
    let mut callee: Option<Callee> = Some(tree.open());
    String::from_str(alloc, looks::called(&mut callee)?).ok()
}

fn fields_of(alloc: Global, text: &str) -> Option<String> {
    let node = node(alloc, Class::Expr, text)?;
    fields::text_of(alloc, &node)
}

/// What is answered to a row; nothing, where memory is refused or a word or the input is not as it should be.
pub fn answer(alloc: Global, words: &str, input: &str) -> Option<String> {
    let (word, class) = words.split_once(' ')?;
    match word {
        "tree" => opened(alloc, class, input),
        "fields" => fields_of(alloc, input),
        "callee" => called(alloc, input),
        "debug" => shown(alloc, input),
        _ => None,
    }
}
