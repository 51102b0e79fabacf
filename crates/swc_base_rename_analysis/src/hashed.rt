//! A hash of ids.
ghost use Rattle.std.specs.Prelude.{◌≡◌};
ghost use Rattle.swc_base_rename_analysis.specs.Hashed.{hash_of as is_hash_of, mixed as is_mixed, mixed_all};

use swc_tree_marks::{Ident, Mark};

const START: u64 = 0xcbf2_9ce4_8422_2325;

const PRIME: u64 = 0x100_0000_01b3;

/// The hash of an identifier's id, by its text and its context: that of Fowler, Noll and Vo, over 64 bits.
pub fn hash_of(ident: &Ident) -> u64
    ensures { result ≡ is_hash_of (ident.now.sym, ident.now.ctxt) }
{
    let of_text = mix_bytes(START, ident.sym.as_str().as_bytes());
    mix_marks(of_text, ident.ctxt.marks())
}

fn mix_bytes(start: u64, bytes: &[u8]) -> u64
    ensures { result ≡ mixed_all start bytes.now }
{
    let mut hash = start;
    for byte in bytes {
        hash = mixed(hash, u64::from(*byte));
    }
    hash
}

fn mix_marks(start: u64, marks: &[Mark]) -> u64
    ensures { result ≡ mixed_all start marks.now }
{
    let mut hash = start;
    for mark in marks {
        hash = mixed(hash, u64::from(mark.as_u32()));
    }
    hash
}

fn mixed(hash: u64, number: u64) -> u64
    ensures { result ≡ is_mixed hash number }
{
    (hash ^ number).wrapping_mul(PRIME)
}
