//! Lines and columns of a text (ECMA-262, 12.3).
ghost use Rattle.std.specs.Prelude.{◌≡◌, min, length, slice_index};
ghost use Rattle.text_places.specs.Places as spec;

/// A place in a text: its line, and in that its column in characters, both from 1.
#[derive(Clone, Copy, Debug)]
pub struct Place {
    pub line: usize,
    pub column: usize,
}

fn byte_at(text: &[u8], index: usize) -> u8
    ensures { result ≡ slice_index text.now index }
{
    text.get(index).copied().unwrap_or(0)
}

// Whether a line ends with the byte at an index.
fn ends_line(text: &[u8], i: usize) -> bool
    ensures { result ≡ spec.ends_line text.now i }
{
    let byte = byte_at(text, i);
    byte == 10
        || byte == 13 && byte_at(text, i.saturating_add(1)) != 10
        || (byte == 168 || byte == 169)
            && byte_at(text, i.saturating_sub(1)) == 128
            && byte_at(text, i.saturating_sub(2)) == 226
}

fn begins_character(byte: u8) -> bool
    ensures { result ≡ spec.begins_character byte }
{
    byte < 128 || 191 < byte
}

/// The line and the column of what stands behind so many bytes of a text; more bytes than it has are its end.
///
/// The time is in step with how many bytes these are.
#[tactic(auto, using(crate::proofs::Steps::line_ended, crate::proofs::Steps::line_goes_on, crate::proofs::Steps::column_ended, crate::proofs::Steps::column_begins, crate::proofs::Steps::column_goes_on))]
pub fn line_and_column(text: &[u8], at: usize) -> Place
    ensures line { result.line ≡ spec.line text.now (min at (length text.now)) }
    ensures column { result.column ≡ spec.column text.now (min at (length text.now)) }
{
    let end = at.min(text.len());
    let mut line = 1;
    let mut column = 1;
    for i in 0..end {
        if ends_line(text, i) {
            line += 1;
            column = 1;
        } else if begins_character(byte_at(text, i)) {
            column += 1;
        }
    }
    Place { line, column }
}
