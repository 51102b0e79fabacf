//! Lines and columns of places that come one after another.
ghost use Rattle.std.specs.Prelude.{◌≡◌, ◌+◌, ◌<◌, length, slice_index};
ghost use Rattle.text_places.specs.Places as spec;
ghost use Rattle.mucwathi_lists.specs.Cursors.{IsIn, IsPlaceOf};

use text_places::{Place, line_and_column};

/// A place in a text, with its line and column: those of later places are found from it on.
#[derive(Clone, Copy)]
pub(crate) struct Cursor {
    at: usize,
    place: Place,
}

fn byte_at(text: &[u8], index: usize) -> u8
    ensures { result ≡ slice_index text.now index }
{
    text.get(index).copied().unwrap_or(0)
}

// Whether a line ends with the byte at an index (ECMA-262, 12.3).
fn ends_line(text: &[u8], i: usize) -> bool
    ensures { result ≡ spec.ends_line text.now i }
{
    let byte = byte_at(text, i);
    byte == 10
        || byte == 13 && byte_at(text, i.saturating_add(1)) != 10
        || (byte == 168 || byte == 169)
            && byte_at(text, i.saturating_sub(1)) == 128
            && byte_at(text, i.saturating_sub(2)) == 226
}

fn begins_character(byte: u8) -> bool
    ensures { result ≡ spec.begins_character byte }
{
    byte < 128 || 191 < byte
}

impl Cursor {
    pub(crate) fn new(text: &[u8]) -> Cursor
        ensures { IsIn text.now result }
    {
        Cursor {
            at: 0,
            place: Place { line: 1, column: 1 },
        }
    }

    // The place behind one byte more.
    #[tactic(auto, using(crate::proofs::Steps::line_ended, crate::proofs::Steps::line_goes_on, crate::proofs::Steps::column_ended, crate::proofs::Steps::column_begins, crate::proofs::Steps::column_goes_on))]
    fn step(self, text: &[u8]) -> Cursor
        requires here { IsIn text.now self }
        requires below { self.at < length text.now }
        ensures there { IsIn text.now result }
        ensures moved { result.at ≡ self.at + 1 }
    {
        let at = self.at;
        let Place { line, column } = self.place;
        let place = if ends_line(text, at) {
            Place {
                line: line + 1,
                column: 1,
            }
        } else if begins_character(byte_at(text, at)) {
            Place {
                line,
                column: column + 1,
            }
        } else {
            Place { line, column }
        };
        Cursor { at: at + 1, place }
    }

    /// Goes to a place, and tells it: time in step with how far it is, if it is no earlier one.
    pub(crate) fn go(&mut self, text: &[u8], at: usize) -> Place
        requires { IsIn text.now self.old }
        ensures told { IsPlaceOf text.now at result }
        ensures kept { IsIn text.now self.new }
    {
        let end = at.min(text.len());
        if end < self.at {
            return line_and_column(text, end);
        }
        let mut here = *self;
        while here.at < end {
            here = here.step(text);
        }
        *self = here;
        here.place
    }
}
