//! An owned text.
ghost use Rattle.std.specs.Prelude.{◌≡◌, [], IfOk, Some, string_bytes, nat_eq, refl};
ghost use Rattle.std.specs.Hash as fed;
ghost use Rattle.std.specs.Cmp.{on_equiv, on_per, partial_equiv_from_equiv};
ghost use Rattle.std.specs.Cmp.Lexicographic.{pointwise, slice_cmp, nat_list_cmp_total, nat_list_eq_equiv, texts_po, texts_ties};
ghost use Rattle.std.specs.Cmp.Rules.{hashing};
ghost use Rattle.std.specs.Ordering.{nat_cmp};
ghost use borrow.Author.Rules.{rules};

use crate::boxed::Boxed;
use crate::short::ShortText;
use std::alloc::{AllocError, Global};
use std::cmp::Ordering;
use std::fmt;
use std::hash::{Hash, Hasher};
use std::marker::Model;

/// Where the bytes of a text lie.
#[derive(Drop)]
pub(crate) enum Letters {
    /// In the text itself.
    Short(ShortText),
    /// In memory of their own, behind a box, so that a text is no larger than a `String`.
    Long(Boxed<String>),
}

/// An owned UTF-8 text, which contracts see as its bytes.
///
/// A short one, as nearly all names are, takes no memory.
#[derive(Drop)]
pub struct Text {
    letters: Letters,
}

impl Model for Text {
    ghost use Rattle.std.specs.Prelude.{List, ℕ};
    ghost use Rattle.swc_tree_items.specs.Bytes.{bytes_of};

    ghost Value = { List ℕ };

    ghost view = { λ t. bytes_of t.letters };
}

impl Text {
    /// The text of no byte.
    pub fn empty() -> Text
        ensures { result ≡ [] }
    {
        Text {
            letters: Letters::Short(ShortText::empty()),
        }
    }

    /// A copy of a text.
    pub fn new(alloc: Global, text: &str) -> Result<Text, AllocError>
        ensures { IfOk result (λ t. t ≡ text.now) }
    {
        let letters = match ShortText::new(text) {
            Some(short) => Letters::Short(short),
            None => Letters::Long(Boxed::new(alloc, String::from_str(alloc, text)?)?),
        };
        Ok(Text { letters })
    }

    /// The text of a string, with the memory of a long one. Where memory is refused, the string is dropped.
    pub fn from_string(alloc: Global, string: String) -> Result<Text, AllocError>
        ensures { IfOk result (λ t. t ≡ string_bytes string) }
    {
        let letters = match ShortText::new(string.as_str()) {
            Some(short) => Letters::Short(short),
            None => Letters::Long(Boxed::new(alloc, string)?),
        };
        Ok(Text { letters })
    }

    /// The text as a string, with the memory of a long one. Where memory is refused, the text is dropped.
    pub fn into_string(self, alloc: Global) -> Result<String, AllocError>
        ensures { IfOk result (λ string. string_bytes string ≡ self) }
    {
        let Text { letters } = self;
        match letters {
            Letters::Short(short) => String::from_str(alloc, short.as_str()),
            Letters::Long(string) => Ok(string.into_inner()),
        }
    }

    /// The text in place.
    pub fn as_str(&self) -> &str
        ensures { result.now ≡ self.now }
    {
        match &self.letters {
            Letters::Short(short) => short.as_str(),
            Letters::Long(string) => string.get().as_str(),
        }
    }
}

impl Clone for Text {
    ghost is_clone = { λ text copy. copy ≡ text };

    fn clone(&self) -> Result<Text, AllocError> {
        let letters = match &self.letters {
            Letters::Short(short) => Letters::Short(short.copy()),
            Letters::Long(string) => Letters::Long(string.clone()?),
        };
        Ok(Text { letters })
    }
}

impl PartialEq for Text {
    ghost eq = { pointwise nat_eq };

    ghost laws = { partial_equiv_from_equiv nat_list_eq_equiv };

    fn eq(&self, other: &Text) -> bool {
        self.as_str() == other.as_str()
    }
}

impl Eq for Text {
    ghost laws = { nat_list_eq_equiv };
}

impl PartialOrd for Text {
    ghost partial_cmp = { λ x y. Some (slice_cmp nat_cmp x y) };

    ghost laws = { texts_po };

    fn partial_cmp(&self, other: &Text) -> Option<Ordering> {
        Some(self.cmp(other))
    }
}

impl Ord for Text {
    ghost cmp = { slice_cmp nat_cmp };

    ghost total = { nat_list_cmp_total };

    ghost matches_partial_cmp = { λ x y. refl };

    ghost matches_eq = { texts_ties };

    fn cmp(&self, other: &Text) -> Ordering {
        self.as_str().cmp(other.as_str())
    }
}

impl Hash for Text {
    ghost hash_input = { fed.str };

    ghost respects_eq = { Prim.search (hashing, rules) };

    fn hash<H: Hasher>(&self, state: &mut H) {
        self.as_str().hash(state);
    }
}

impl fmt::Display for Text {
    ghost output = { λ text. Some text };

    fn fmt<W: fmt::Write>(&self, f: &mut fmt::Formatter<W>) -> fmt::Result {
        f.write_str(self.as_str())
    }
}

impl fmt::Debug for Text {
    fn fmt<W: fmt::Write>(&self, f: &mut fmt::Formatter<W>) -> fmt::Result {
        fmt::Debug::fmt(&self.as_str(), f)
    }
}
