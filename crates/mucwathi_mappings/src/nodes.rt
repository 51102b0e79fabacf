//! Nodes that are written, by where they are.
ghost use Rattle.std.specs.Prelude.{IfOk};
ghost use Rattle.mucwathi_mappings.specs.Nodes.{HasLast};

use std::alloc::{AllocError, Global};
use std::collections::BTreeMap;

/// A node of what is written that stood in the source.
#[derive(Clone, Copy, Debug)]
pub struct Mapped<'a> {
    /// How many bytes are before it in the source.
    pub read: usize,
    /// How many bytes are before it in what is written.
    pub written: usize,
    /// Its old name, if it has another now.
    pub old: Option<&'a str>,
}

/// The last of those at one place, by their places.
pub(crate) fn by_place<'a>(
    alloc: Global,
    mapped: &[Mapped<'a>],
) -> Result<BTreeMap<usize, Mapped<'a>>, AllocError>
    ensures { IfOk result (HasLast mapped.now) }
{
    let mut places = BTreeMap::new(alloc);
    for node in mapped {
        places.insert(node.written, *node)?;
    }
    Ok(places)
}
