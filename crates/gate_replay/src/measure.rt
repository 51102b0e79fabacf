//! What is measured: JSON read and written by the kit's library alone, and a tree read and written, named or renamed.
//!
//! Standard input is JSON, or an envelope of a script. `json` reads and writes it by the library, `write` as a tree; `name`
//! also makes a map from each id to a new text, and `rename` renames by it.
use crate::texts::text_each;
use anyhow::{Result, bail};
use jsbase_reader::read_bytes;
use jsbase_writer::write_envelope;
use serde_json::Value;
use std::alloc::Global;
use std::io::{Read, Write};
use swc_base_rename_substitution::{Config, Names, substitute};
use swc_tree_node::{Class, Node};

fn json(alloc: Global, input: &[u8]) -> Result<String> {
    let value = Value::from_slice(alloc, input)?;
    Ok(value.to_string(alloc)?)
}

fn renamed(alloc: Global, word: &str, tree: Node) -> Result<Node> {
    if word == "write" {
        return Ok(tree);
    }
    let texts = text_each(alloc, tree.children())?;
    if word == "name" {
        return Ok(tree);
    }
    Ok(substitute(alloc, &Names::Texts(&texts), &Config::default(), tree)?)
}

fn tree(alloc: Global, word: &str, input: &[u8]) -> Result<String> {
    let Ok(envelope) = read_bytes(alloc, Class::Script, input) else {
        bail!("standard input is no envelope of a script, or memory was refused");
    };
    let tree = renamed(alloc, word, envelope.tree)?;
    let (top, unresolved) = (envelope.top, envelope.unresolved);
    Ok(write_envelope(alloc, &envelope.globals, top, &tree, unresolved)?)
}

/// Does what a word asks with standard input.
pub fn serve(rt: &HostRuntime, word: &str) -> Result<()> {
    let alloc = rt.alloc();
    let mut input = Vec::new(alloc);
    rt.stdin().read_to_end(&mut input)?;
    let text = match word {
        "json" => json(alloc, input.as_slice())?,
        "write" | "name" | "rename" => tree(alloc, word, input.as_slice())?,
        _ => bail!("usage: gate_replay [json|write|name|rename|refuse jsbase|pass|WORK WORD..]"),
    };
    rt.stdout().write_all(text.as_bytes())?;
    Ok(())
}
