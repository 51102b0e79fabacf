//! Where pairs of parentheses stood.
ghost use Rattle.std.specs.Prelude.{◌≡◌, IfOk, OnOk};
ghost use Rattle.swc_base_fixer_due.specs.Record.{has_in, place_in, Notes, Records};

use crate::keyed::{Content, Keyed};
use indexmap::IndexMap;
use std::alloc::{AllocError, Global};
use swc_tree_grammar::Pair;
use swc_tree_marks::Span;

type Places = IndexMap<Content, Span, Keyed>;

/// Where the pair round each content of a program stood, in the order of the source. The keys of its hashes come from
/// all contents, so that none are chosen to make it slow.
#[derive(Drop)]
pub struct Record {
    places: Places,
}

// Notes where a pair stood, unless one is noted whose content has the same span.
fn note(places: &mut Places, pair: Pair) -> Result<(), AllocError>
    ensures { OnOk result (Notes places.old pair places.new) }
{
    let content = Content { span: pair.content };
    places.entry(content)?.or_insert(pair.whole);
    Ok(())
}

impl Record {
    /// The record of a program's pairs, of which the last of the source come first. Of two pairs whose contents have
    /// one span the first of the source counts.
    pub fn new(alloc: Global, pairs: &[Pair]) -> Result<Record, AllocError>
        ensures { IfOk result (λ r. Records pairs.now r) }
    {
        let mut places = IndexMap::with_capacity_and_hasher(alloc, pairs.len(), Keyed::by(pairs))?;
        for pair in pairs.iter().rev() {
            note(&mut places, *pair)?;
        }
        Ok(Record { places })
    }

    /// Where the pair round a content is set: where one stood, or else where the content stands.
    pub fn place(&self, content: Span) -> Span
        ensures { result ≡ place_in self.now content }
    {
        match self.places.get(&Content { span: content }) {
            Some(place) => *place,
            None => content,
        }
    }

    /// Whether a pair stood round a content.
    pub fn has(&self, content: Span) -> bool
        ensures { result ≡ has_in self.now content }
    {
        self.places.contains_key(&Content { span: content })
    }
}
