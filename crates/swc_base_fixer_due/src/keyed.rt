//! How a record of pairs hashes their contents: by keys that come from all of them.
ghost use Rattle.std.specs.Prelude.{◌≡◌};
ghost use Rattle.std.proofs.Common.{rules};
ghost use Rattle.std.specs.Cmp.Rules.{hashing};
ghost use Rattle.std.specs.Hash as fed;
ghost use Rattle.swc_base_fixer_due.specs.Keyed.{begun_with, digest, word_of};

use std::hash::{BuildHasher, DefaultHasher, Hash, Hasher};
use swc_tree_grammar::Pair;
use swc_tree_marks::Span;

/// The span of what stands in a pair. It is hashed as one word.
#[derive(Clone, Copy, PartialEq, Eq)]
pub struct Content {
    pub span: Span,
}

fn word(span: Span) -> u64
    ensures { result ≡ word_of span }
{
    span.lo as u64 + ((span.hi as u64) << 32)
}

impl Hash for Content {
    ghost hash_input = { λ c. fed.u64 (word_of c.span) };

    ghost respects_eq = { Prim.search (hashing, rules) };

    fn hash<H: Hasher>(&self, state: &mut H) {
        state.write_u64(word(self.span));
    }
}

/// Begins each hash with two digests of all contents. So a content's hash is known only once all of them are, and none
/// can be chosen for the hash that it will have.
#[derive(Clone, Copy)]
pub struct Keyed {
    begun: DefaultHasher,
}

fn digest_of(beginning: u64, pairs: &[Pair]) -> u64
    ensures { result ≡ digest beginning pairs.now }
{
    let mut hasher = DefaultHasher::new();
    hasher.write_u64(beginning);
    for pair in pairs {
        hasher.write_u64(word(pair.content));
    }
    hasher.finish()
}

impl Keyed {
    /// By the contents of these pairs.
    pub fn by(pairs: &[Pair]) -> Keyed
        ensures { result.begun ≡ begun_with (digest 0 pairs.now) (digest 1 pairs.now) }
    {
        let mut begun = DefaultHasher::new();
        begun.write_u64(digest_of(0, pairs));
        begun.write_u64(digest_of(1, pairs));
        Keyed { begun }
    }
}

impl BuildHasher for Keyed {
    type Hasher = DefaultHasher;

    ghost build_hasher = { λ keyed. keyed.begun };

    fn build_hasher(&self) -> DefaultHasher {
        self.begun
    }
}
