//! The reading of a text.

ghost use Rattle.std.specs.Prelude.{◌≡◌, ◌+◌, ◌^◌, ◌<◌, ◌⊎◌, length, IfOk, IfErr, IfSome};
ghost use Rattle.std.specs.Io.{ReadsAtMost};
ghost use Rattle.std.specs.Io.KnownBytes.{ReadConsumes};

use crate::text_error::TextError;
use std::alloc::Global;
use std::io;
use std::io::{ErrorKind, Read};

/// The most reads that a text may take.
const MOST_READS: u64 = 4294967296;

/// How many bytes a read asks for.
const CHUNK: usize = 65536;

/// All that a reader has left, by at most 4294967296 reads. A read that was interrupted is
/// tried again, and counts.
///
/// `Read` where the reader failed, or had not ended after so many; `NoMemory` where memory was
/// refused. What the reader has left then isn't told.
pub fn read_text<R: Read>(alloc: Global, input: &mut R) -> Result<Vec<u8>, TextError>
    ensures ok { IfOk result (λ text. IfSome (R.remaining input.old) (λ bytes. text.items ≡ bytes)) }
    ensures err { IfErr result (λ e. (e ≡ TextError.Read) ⊎ (e ≡ TextError.NoMemory)) }
{
    match vec![in alloc; 0; CHUNK] {
        Ok(mut chunk) => read_by_chunks(alloc, input, chunk.as_mut_slice()),
        Err(_) => Err(TextError::NoMemory),
    }
}

// All that a reader has left, where what each read gives is put into the chunk first.
fn read_by_chunks<R: Read>(
    alloc: Global,
    input: &mut R,
    chunk: &mut [u8],
) -> Result<Vec<u8>, TextError>
    requires { 0 < length chunk.old }
    ensures ok { IfOk result (λ text. IfSome (R.remaining input.old) (λ bytes. text.items ≡ bytes)) }
    ensures err { IfErr result (λ e. (e ≡ TextError.Read) ⊎ (e ≡ TextError.NoMemory)) }
{
    let mut text = Vec::new(alloc);
    let mut reads = 0;
    'reads: while reads < MOST_READS {
        match read_counted(input, chunk, &mut reads) {
            Ok(0) => return Ok(text),
            Ok(count) => {
                if text.extend_from_slice(&chunk[..count]).is_err() {
                    return Err(TextError::NoMemory);
                }
            }
            Err(e) => {
                if e.kind() != ErrorKind::Interrupted {
                    return Err(TextError::Read);
                }
            }
        }
    }
    Err(TextError::Read)
}

// One read, which uses up one of the reads that a text may take. No other function reads.
fn read_counted<R: Read>(input: &mut R, chunk: &mut [u8], reads: &mut u64) -> io::Result<usize>
    requires { reads.old < 2 ^ 32 }
    ensures bound { ReadsAtMost result chunk.new }
    ensures bytes { ReadConsumes (R.remaining input.old) (R.remaining input.new) result chunk.new }
    ensures counted { reads.new ≡ reads.old + 1 }
{
    *reads += 1;
    input.read(chunk)
}
