//! From the bytes of a text to its tree, as JSON or as a text.
ghost use Rattle.std.specs.Prelude.{◌≡◌, IfOk};
ghost use Rattle.example_text.specs.Answers.{IsAnswer, IsPrinted, IsTree};
ghost use Rattle.text_source.specs.Texts as spec;
ghost use Rattle.text_source.specs.Texts.{IsTextOf};

use jsbase_writer::write;
use std::alloc::Global;
use std::mem::forget;
use swc_tree_node::Node;
use text_edit::{EditFault, edit_text};
use text_lexer::Comments;
use text_printer::{Layout, PrintFault, print_text};
use text_source::{Goal, TextFault, read_text};

/// How many productions may be open at once, and how many nodes may stand one in another.
const DEPTH: u32 = 4_000;

/// What is made of a text.
#[derive(Clone, Copy, Debug)]
pub enum Task {
    /// Nothing: it is read.
    Read,
    /// Its tree, as JSON (docs/JSON.md).
    Tree,
    /// Itself, edited to be the text of its own tree.
    Keep,
    /// The text of its tree, laid out anew.
    Print(Layout),
}

/// Why there is no answer.
#[derive(Clone, Copy, Debug)]
pub enum Fault {
    /// The text is not read.
    Read(TextFault),
    /// Its tree is not edited.
    Edit(EditFault),
    /// Its tree is not printed.
    Print(PrintFault),
}

fn comments_of(goal: Goal) -> Comments
    ensures { result ≡ spec.comments_of goal }
{
    match goal {
        Goal::Module => Comments::Module,
        Goal::Script => Comments::Script,
    }
}

fn read(alloc: Global, goal: Goal, text: &[u8]) -> Result<Node, Fault>
    ensures { IfOk result (λ tree. IsTextOf goal tree text.now) }
{
    match read_text(alloc, goal, DEPTH, text) {
        Ok(tree) => Ok(tree),
        Err(fault) => Err(Fault::Read(fault)),
    }
}

fn tree(alloc: Global, goal: Goal, text: &[u8]) -> Result<Vec<u8>, Fault>
    ensures { IfOk result (λ out. IsTree goal text.now out.items) }
{
    let tree = read(alloc, goal, text)?;
    match write(alloc, &tree) {
        Ok(json) => Ok(json.into_bytes()),
        Err(_) => Err(Fault::Read(TextFault::NoMemory)),
    }
}

fn keep(alloc: Global, goal: Goal, text: &[u8]) -> Result<Vec<u8>, Fault>
    ensures { IfOk result (λ out. out.items ≡ text.now) }
{
    let tree = read(alloc, goal, text)?;
    let edited = edit_text(alloc, comments_of(goal), text, &tree, &tree);
    forget(tree); // the process ends next, and gives back all at once
    match edited {
        Ok(out) => Ok(out),
        Err(fault) => Err(Fault::Edit(fault)),
    }
}

fn print(alloc: Global, goal: Goal, layout: Layout, text: &[u8]) -> Result<Vec<u8>, Fault>
    ensures { IfOk result (λ out. IsPrinted goal text.now out.items) }
{
    let tree = read(alloc, goal, text)?;
    let printed = print_text(alloc, comments_of(goal), layout, &tree);
    forget(tree);
    match printed {
        Ok(out) => Ok(out),
        Err(fault) => Err(Fault::Print(fault)),
    }
}

/// What is made of a text.
pub fn answer(alloc: Global, goal: Goal, task: Task, text: &[u8]) -> Result<Vec<u8>, Fault>
    ensures { IfOk result (λ out. IsAnswer goal task text.now out.items) }
{
    match task {
        Task::Read => {
            let tree = read(alloc, goal, text)?;
            forget(tree);
            Ok(Vec::new(alloc))
        }
        Task::Tree => tree(alloc, goal, text),
        Task::Keep => keep(alloc, goal, text),
        Task::Print(layout) => print(alloc, goal, layout, text),
    }
}
