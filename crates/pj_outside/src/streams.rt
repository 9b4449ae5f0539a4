//! Whole files from readers, and whole pieces into writers.
ghost use Rattle.std.specs.Prelude.{IfSome};
ghost use Rattle.pj_outside.specs.Stored.{AtMost};
ghost use Rattle.pj_outside.specs.Streams.{ReadsWhole};
ghost use Rattle.pj_outside.specs.Written.{Puts};

use crate::answers::{ReadAnswer, SinkFault};
use std::alloc::Global;
use std::io::{Read, Write};

/// How many bytes are asked of a reader at a time.
const PIECE: usize = 16_384;

/// Reads all that a reader has left, where it has at most `limit` bytes. It asks for no more than one byte past the limit.
/// Failed says that the reader failed, and then some bytes may have been taken.
pub fn read_whole<R: Read>(alloc: Global, reader: &mut R, limit: usize) -> ReadAnswer
    ensures bound { AtMost limit result }
    ensures whole { IfSome (R.remaining reader.old) (λ left. ReadsWhole left limit result) }
{
    let mut bytes = Vec::new(alloc);
    let mut buffer = [0u8; PIECE];
    for _ in 0..u64::MAX {
        let free = limit - bytes.len();
        let asked = if free < PIECE { free + 1 } else { PIECE };
        let piece = &mut buffer[..asked];
        match reader.read(piece) {
            Ok(0) => return ReadAnswer::Bytes(bytes),
            Ok(count) => {
                if count > free {
                    return ReadAnswer::TooLong;
                }
                if bytes.extend_from_slice(&piece[..count]).is_err() {
                    return ReadAnswer::NoMemory;
                }
            }
            Err(_) => return ReadAnswer::Failed,
        }
    }
    ReadAnswer::Failed
}

/// Writes all bytes of a piece and flushes the writer. After a fault a front of the piece has been written.
pub fn put_whole<W: Write>(writer: &mut W, bytes: &[u8]) -> Result<(), SinkFault>
    ensures { IfSome (W.contents writer.old) (λ old. Puts old bytes.now result (W.contents writer.new)) }
{
    let mut done = 0;
    for _ in 0..u64::MAX {
        if done == bytes.len() {
            return match writer.flush() {
                Ok(()) => Ok(()),
                Err(_) => Err(SinkFault),
            };
        }
        match writer.write(&bytes[done..]) {
            Ok(0) => return Err(SinkFault),
            Ok(count) => done += count,
            Err(_) => return Err(SinkFault),
        }
    }
    Err(SinkFault)
}
