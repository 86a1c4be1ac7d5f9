//! A whole source read up to a limit, and a text written and flushed.

ghost use Rattle.std.specs.Prelude.{◌≡◌, ◌≢◌, ◌+◌, ◌-◌, ◌<◌, ◌≤◌, length, take, vec_len, OnOk, OnErr, IfOk, IfErr, IfSome, IsErrOf};
ghost use Rattle.std.specs.Bool.{OnTrue, OnFalse};
ghost use Rattle.std.specs.Io.KnownBytes.{Appends, IsAtEnd};
ghost use Rattle.bm_text.specs.Faults.{Rose};
ghost use Rattle.bm_text.specs.Sink.{AllFlushed};
ghost use Rattle.bm_text.specs.Whole.{TakesSome, TakesInto, TakesCount};

use crate::input::{Read, Source};
use crate::output::{Flushed, Sink, Wrote};
use std::alloc::Global;
use thiserror::Error;

/// Why a source wasn't read whole.
#[derive(Clone, Copy, Debug, PartialEq, Eq, Error)]
pub enum TextFault {
    /// The source failed: its count of faults rose.
    #[error("read failed")]
    Read,
    /// More bytes than the limit were read.
    #[error("too long")]
    TooLong,
    /// Memory ran out.
    #[error("out of memory")]
    NoMemory,
}

// How many bytes are asked for at a time.
const PIECE: usize = 4096;

/// Reads all that is left, up to `limit` bytes, which may be any number. An error leaves the source behind what was
/// taken from it. `Read` comes only where the source failed; `TooLong` comes where one byte more than the limit was
/// read, and takes no more than that.
pub fn read_all<S: Source>(
    alloc: Global,
    source: &mut S,
    limit: usize,
) -> Result<Vec<u8>, TextFault>
    // All that was left, and nothing is left afterwards.
    ensures all { IfOk result (λ bytes. IfSome (S.left source.old) (λ left. bytes.items ≡ left)) }
    ensures end { OnOk result (IsAtEnd (S.left source.new)) }
    ensures within { IfOk result (λ bytes. vec_len bytes ≤ limit) }

    // When each error comes.
    ensures read { IsErrOf result TextFault.Read
        → Rose (S.faults source.old) (S.faults source.new) }
    ensures too_long { IsErrOf result TextFault.TooLong
        → TakesCount (S.left source.old) (S.left source.new) (limit + 1) }
    ensures over { IfSome (S.left source.old)
        (λ left. IsErrOf result TextFault.TooLong → limit < length left) }

    // At any answer.
    ensures taken { TakesSome (S.left source.old) (S.left source.new) }
    ensures faultless { result ≢ Err TextFault.Read → S.faults source.new ≡ S.faults source.old }
    ensures never_falls { S.faults source.old ≤ S.faults source.new }
{
    let mut bytes = Vec::new(alloc);
    'turns: while read_piece(source, &mut bytes, limit)? {}
    Ok(bytes)
}

// Reads some more bytes behind those that came before, and answers whether it did; false at the end.
fn read_piece<S: Source>(
    source: &mut S,
    bytes: &mut Vec<u8>,
    limit: usize,
) -> Result<bool, TextFault>
    requires { vec_len bytes.old ≤ limit }
    ensures more { OnOk result
        (TakesInto (S.left source.old) (S.left source.new) bytes.old.items bytes.new.items) }
    ensures end { IfOk result (λ more. OnFalse more (IsAtEnd (S.left source.new))) }
    ensures progress { IfOk result (λ more. OnTrue more (vec_len bytes.old < vec_len bytes.new)) }
    ensures within { OnOk result (vec_len bytes.new ≤ limit) }

    ensures read { IsErrOf result TextFault.Read
        → Rose (S.faults source.old) (S.faults source.new) }
    ensures too_long { IsErrOf result TextFault.TooLong →
        TakesCount (S.left source.old) (S.left source.new) (limit + 1 - vec_len bytes.old) }

    ensures taken { TakesSome (S.left source.old) (S.left source.new) }
    ensures faultless { result ≢ Err TextFault.Read → S.faults source.new ≡ S.faults source.old }
    ensures never_falls { S.faults source.old ≤ S.faults source.new }
{
    let room = limit - bytes.len();
    let most = if room < PIECE { room + 1 } else { PIECE };
    let mut piece = [0; PIECE];
    match source.read(&mut piece[..most]) {
        Read::Got(count) if count > room => Err(TextFault::TooLong),
        Read::Got(count) => match bytes.extend_from_slice(&piece[..count]) {
            Ok(()) => Ok(true),
            Err(_) => Err(TextFault::NoMemory),
        },
        Read::End => Ok(false),
        Read::Failed => Err(TextFault::Read),
    }
}

/// Writes all bytes and then flushes. It takes no memory. Err says how many bytes were written, all of them where the
/// flush failed, and comes only where the sink failed.
pub fn write_all<K: Sink>(sink: &mut K, bytes: &[u8]) -> Result<(), usize>
    ensures written { OnOk result (Appends (K.written sink.old) (K.written sink.new) bytes.now) }
    ensures flushed { OnOk result
        (AllFlushed (K.flushed sink.old) (K.written sink.new) (K.flushed sink.new)) }
    ensures faultless { OnOk result (K.faults sink.new ≡ K.faults sink.old) }

    ensures count { IfErr result (λ n. n ≤ length bytes.now) }
    ensures prefix { IfErr result
        (λ n. Appends (K.written sink.old) (K.written sink.new) (take n bytes.now)) }
    ensures not_flushed { OnErr result (K.flushed sink.new ≡ K.flushed sink.old) }
    ensures cause { OnErr result (Rose (K.faults sink.old) (K.faults sink.new)) }

    ensures never_falls { K.faults sink.old ≤ K.faults sink.new }
{
    let mut done = 0;
    'turns: while done < bytes.len() {
        match sink.write(&bytes[done..]) {
            Wrote::Took(count) => done += count,
            Wrote::Failed => return Err(done),
        }
    }
    match sink.flush() {
        Flushed::Done => Ok(()),
        Flushed::Failed => Err(done),
    }
}
