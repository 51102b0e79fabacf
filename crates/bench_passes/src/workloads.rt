//! The workloads.
use crate::digest::Digest;
use crate::files::{File, Source};
use crate::lowered::{Invented, lower};
use anyhow::{Result, bail};
use gate_renamers::Letters;
use jsbase_engine::{Command, Kind, run as engine};
use jsbase_writer::write_envelope;
use std::alloc::Global;
use swc_ecma_transforms_base::finish_module;
use swc_ecma_transforms_base::fixer::{fixer, paren_remover};
use swc_ecma_transforms_base::rename::{Config, renamer};
use swc_ecma_transforms_base::resolver::{marks_ok, resolver};
use swc_tree::{Globals, JsPass, Mark, Module, NoComments, Opened};
use swc_tree_node::Node;
use swc_tree_walk::sites;

/// How many files there are, and of how many copies each is.
#[derive(Clone, Copy)]
pub struct Sizes {
    pub files: u32,
    pub copies: u32,
}

/// What is done with each file.
#[derive(Clone, Copy)]
pub enum Workload {
    /// The bytes of its envelope are taken through `jsbase chain module`.
    Chain,
    /// It is resolved, a lowering pass makes up names in it, and it is finished.
    Lower,
    /// It is resolved, its pairs are taken off, a minifier gives short names, and its pairs are set anew.
    Minify,
    /// It is resolved, its names are those of minified files that were joined, eight texts for all, and it is finished.
    Join,
    /// It is resolved, and a lint lists its names, each with as what it stands.
    Lint,
}

/// The workloads that a word names.
pub fn workloads_named(word: &str) -> Option<&'static [Workload]> {
    match word {
        "chain" => Some(&[Workload::Chain]),
        "lower" => Some(&[Workload::Lower]),
        "minify" => Some(&[Workload::Minify]),
        "join" => Some(&[Workload::Join]),
        "lint" => Some(&[Workload::Lint]),
        "all" => Some(&[
            Workload::Chain,
            Workload::Lower,
            Workload::Minify,
            Workload::Join,
            Workload::Lint,
        ]),
        _ => None,
    }
}

// The marks of a program.
#[derive(Clone, Copy)]
struct Marks {
    top: Mark,
    unresolved: Mark,
}

fn resolve(alloc: Global, marks: Marks, file: &mut File) -> Result<()> {
    if !marks_ok(&file.globals, marks.unresolved, marks.top) {
        bail!("the marks are not known");
    }
    let mut pass = resolver(marks.unresolved, marks.top);
    pass.visit_mut_module(alloc, &mut file.globals, &mut file.module)?;
    Ok(())
}

// Takes the text of an envelope through the engine.
fn chain_text(alloc: Global, text: &str, digest: &mut Digest) -> Result<()> {
    match engine(alloc, Command::Chain, Kind::Module, text.as_bytes()) {
        Ok(answer) => {
            digest.bytes(answer.as_slice());
            Ok(())
        }
        Err(_) => bail!("the engine refused a file"),
    }
}

fn chain(alloc: Global, marks: Marks, file: File, digest: &mut Digest) -> Result<()> {
    let File { globals, module } = file;
    let tree = module.into_node(alloc)?;
    let text = write_envelope(alloc, &globals, marks.top, &tree, marks.unresolved)?;
    chain_text(alloc, text.as_str(), digest)
}

// What is left of a module in which names were made up, and which was finished.
fn finished(
    alloc: Global,
    globals: &mut Globals,
    names: Invented,
    module: Module,
) -> Result<Module> {
    let mut module = lower(alloc, globals, names, module)?;
    let config = Config::default();
    finish_module(alloc, globals, config, None::<&mut NoComments>, &mut module)?;
    Ok(module)
}

fn finish(
    alloc: Global,
    marks: Marks,
    names: Invented,
    mut file: File,
    digest: &mut Digest,
) -> Result<()> {
    resolve(alloc, marks, &mut file)?;
    let File {
        mut globals,
        module,
    } = file;
    let module = finished(alloc, &mut globals, names, module)?;
    digest.module(&module);
    digest.globals(&globals);
    Ok(())
}

// Takes the pairs off a module, gives it short names, and sets its pairs anew.
fn make_small(alloc: Global, globals: &mut Globals, module: &mut Module) -> Result<()> {
    paren_remover(None::<&mut NoComments>).visit_mut_module(alloc, globals, module)?;
    renamer(Config::default(), Letters).visit_mut_module(alloc, globals, module)?;
    fixer(None::<&mut NoComments>).visit_mut_module(alloc, globals, module)?;
    Ok(())
}

fn minify(alloc: Global, marks: Marks, mut file: File, digest: &mut Digest) -> Result<()> {
    resolve(alloc, marks, &mut file)?;
    make_small(alloc, &mut file.globals, &mut file.module)?;
    digest.module(&file.module);
    digest.globals(&file.globals);
    Ok(())
}

// The names of a tree.
fn list_names(alloc: Global, tree: &Node, digest: &mut Digest) -> Result<()> {
    digest.sites(sites(alloc, tree)?.as_slice());
    Ok(())
}

fn lint(alloc: Global, marks: Marks, mut file: File, digest: &mut Digest) -> Result<()> {
    resolve(alloc, marks, &mut file)?;
    let File { globals, module } = file;
    let tree = module.into_node(alloc)?;
    list_names(alloc, &tree, digest)?;
    digest.globals(&globals);
    Ok(())
}

// What a workload does with the next file of a source.
fn work(
    alloc: Global,
    workload: Workload,
    source: &mut Source,
    copies: u32,
    digest: &mut Digest,
) -> Result<()> {
    let file = source.file(alloc, copies)?;
    let marks = Marks {
        top: source.top,
        unresolved: source.unresolved,
    };
    match workload {
        Workload::Chain => chain(alloc, marks, file, digest),
        Workload::Lower => finish(alloc, marks, Invented::Helpers, file, digest),
        Workload::Minify => minify(alloc, marks, file, digest),
        Workload::Join => finish(alloc, marks, Invented::Letters, file, digest),
        Workload::Lint => lint(alloc, marks, file, digest),
    }
}

/// Runs a workload on its files: the digest of what it makes of them.
///
/// # Errors
///
/// Where memory is refused, or a pass.
pub fn run(alloc: Global, workload: Workload, sizes: Sizes, source: &mut Source) -> Result<u64> {
    let mut digest = Digest::new();
    for _ in 0..sizes.files {
        work(alloc, workload, source, sizes.copies, &mut digest)?;
    }
    Ok(digest.value())
}
