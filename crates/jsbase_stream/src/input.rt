//! What a reader gives until its end.
ghost use Rattle.std.specs.Prelude.{◌≡◌, ◌≤◌, ◌<◌, ◌+◌, IfOk, OnOk, OnErr, take, drop, length, vec_len};
ghost use Rattle.std.specs.Io.KnownBytes.{Consumes, IsAtEnd, Keeps};
ghost use Rattle.jsbase_stream.specs.Bytes.{LosesBeginning, IsRead};

use std::alloc::Global;
use std::io::Read;
use thiserror::Error;

// How much room is made for a read, in bytes.
const ROOM: usize = 64 * 1024;

/// Why an input was not read to its end.
#[derive(Clone, Copy, Debug, PartialEq, Eq, Error)]
pub enum InputFault {
    /// A call of the reader failed, or the input did not end.
    #[error("read failed")]
    Read,
    /// Memory was refused.
    #[error("refused: NoMemory")]
    NoMemory,
}

/// All bytes that a reader has left.
///
/// Each call of `read` is made once, at most 2^64 - 1 of them, and none after one that failed, whatever its error: one that was
/// interrupted failed too.
///
/// # Errors
///
/// `Read` where a call of the reader fails, or none of them gave the end; `NoMemory` where memory for the bytes is refused. The reader then
/// has lost a beginning of what it had left.
pub fn read_all<R: Read>(alloc: Global, reader: &mut R) -> Result<Vec<u8>, InputFault>
    ensures whole { IfOk result (λ input. IsRead (R.remaining reader.old) (R.remaining reader.new) input.items) }
    ensures beginning { OnErr result (LosesBeginning (R.remaining reader.old) (R.remaining reader.new)) }
{
    let mut input = Vec::new(alloc);
    let mut filled = 0;
    for _ in 0..u64::MAX {
        let count = read_more(reader, &mut input, filled)?;
        if count == 0 {
            input.truncate(filled);
            return Ok(input);
        }
        filled += count;
    }
    Err(InputFault::Read)
}

// One read, behind the bytes that there are. Room is made before, so that no byte is lost where memory is refused.
fn read_more<R: Read>(
    reader: &mut R,
    input: &mut Vec<u8>,
    filled: usize,
) -> Result<usize, InputFault>
    requires { filled ≤ vec_len input.old }
    ensures within { filled ≤ vec_len input.new }
    ensures front { take filled input.new.items ≡ take filled input.old.items }
    ensures fits { IfOk result (λ n. filled + n ≤ vec_len input.new) }
    ensures bytes { IfOk result (λ n. Consumes (R.remaining reader.old) (R.remaining reader.new) (take n (drop filled input.new.items))) }
    ensures end { IfOk result (λ n. n ≡ 0 → IsAtEnd (R.remaining reader.new)) }
    ensures kept { OnErr result (Keeps (R.remaining reader.old) (R.remaining reader.new)) }
{
    make_room(input, filled)?;
    read_behind(reader, input.as_mut_slice(), filled)
}

// Makes an input longer than so many bytes, by zeros.
fn make_room(input: &mut Vec<u8>, filled: usize) -> Result<(), InputFault>
    requires { filled ≤ vec_len input.old }
    ensures within { filled ≤ vec_len input.new }
    ensures front { take filled input.new.items ≡ take filled input.old.items }
    ensures room { OnOk result (filled < vec_len input.new) }
{
    if filled < input.len() {
        return Ok(());
    }
    let Some(end) = filled.checked_add(ROOM) else {
        return Err(InputFault::NoMemory);
    };
    if input.resize(end, 0).is_err() {
        return Err(InputFault::NoMemory);
    }
    Ok(())
}

// One read into what stands behind so many bytes.
fn read_behind<R: Read>(reader: &mut R, room: &mut [u8], at: usize) -> Result<usize, InputFault>
    requires { at < length room.old }
    ensures front { take at room.new ≡ take at room.old }
    ensures fits { IfOk result (λ n. at + n ≤ length room.new) }
    ensures bytes { IfOk result (λ n. Consumes (R.remaining reader.old) (R.remaining reader.new) (take n (drop at room.new))) }
    ensures end { IfOk result (λ n. n ≡ 0 → IsAtEnd (R.remaining reader.new)) }
    ensures kept { OnErr result (Keeps (R.remaining reader.old) (R.remaining reader.new)) }
{
    match reader.read(&mut room[at..]) {
        Ok(count) => Ok(count),
        Err(_) => Err(InputFault::Read),
    }
}
