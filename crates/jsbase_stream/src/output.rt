//! What a writer takes.
ghost use Rattle.std.specs.Prelude.{◌≤◌, IfErr, OnOk, take, length};
ghost use Rattle.std.specs.Io.KnownBytes.{Appends};
ghost use Rattle.jsbase_stream.specs.Bytes.{TakesBeginning};

use std::io::Write;

/// Writes bytes.
///
/// Each call of `write` is made once, for all that is left, and none after one that failed, whatever its error, or took nothing.
///
/// # Errors
///
/// How many bytes were written before such a call: the first so many of them, and no other.
pub fn write_counted<W: Write>(writer: &mut W, bytes: &[u8]) -> Result<(), usize>
    ensures whole { OnOk result (Appends (W.contents writer.old) (W.contents writer.new) bytes.now) }
    ensures beginning { IfErr result (TakesBeginning (W.contents writer.old) (W.contents writer.new) bytes.now) }
{
    let mut written = 0;
    while written < bytes.len() {
        let count = write_once(writer, &bytes[written..]);
        if count == 0 {
            return Err(written);
        }
        written += count;
    }
    Ok(())
}

// How many bytes one write takes: none where it fails.
fn write_once<W: Write>(writer: &mut W, bytes: &[u8]) -> usize
    ensures within { result ≤ length bytes.now }
    ensures taken { Appends (W.contents writer.old) (W.contents writer.new) (take result bytes.now) }
{
    match writer.write(bytes) {
        Ok(count) => count,
        Err(_) => 0,
    }
}
