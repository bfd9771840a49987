//! Whole inputs and whole texts, at any source and any sink.
ghost use Rattle.std.specs.Prelude.{◌≡◌, ◌≢◌, ◌+◌, ◌*◌, ◌<◌, ◌≤◌, ℕ, length, take, drop, max, vec_len, vec_capacity};
ghost use Rattle.std.specs.Prelude.{Err, IfOk, OnOk, OnErr};
ghost use Rattle.std.specs.Io.KnownBytes.{IsAtEnd, append_known, prepend_known};
ghost use Rattle.at_source.specs.Faults.{Rose};
ghost use Rattle.at_source.specs.Whole.{GaveAll, GaveFirst, GaveFewer, GrewByPrefix};

use crate::bytes::append_zeros;
use crate::sink::Sink;
use crate::source::{Failed, Source};
use std::alloc::{AllocError, Global};
use thiserror::Error;

/// Why an input wasn't read to its end.
#[derive(Clone, Copy, Debug, PartialEq, Eq, Error)]
pub enum ReadAllFault {
    /// The source failed.
    #[error("the input failed")]
    Failed,
    /// The source gave as many bytes as were wanted at most, so it may have more.
    #[error("the input is too long")]
    TooLong,
    /// There was no memory for the bytes.
    #[error("out of memory")]
    NoMemory,
}

impl From<Failed> for ReadAllFault {
    ghost use Rattle.at_source.specs.declared.whole.ReadAllFault.TheVariants as faults;

    ghost from_gives = { λ _ fault. fault ≡ faults.Failed };

    fn from(_fault: Failed) -> ReadAllFault {
        ReadAllFault::Failed
    }
}

impl From<AllocError> for ReadAllFault {
    ghost use Rattle.at_source.specs.declared.whole.ReadAllFault.TheVariants as faults;

    ghost from_gives = { λ _ fault. fault ≡ faults.NoMemory };

    fn from(_fault: AllocError) -> ReadAllFault {
        ReadAllFault::NoMemory
    }
}

/// How many bytes the first read asks for at most.
const FIRST_READ: usize = 8 * 1024;

/// How many bytes any read asks for at most.
const LONGEST_READ: usize = 64 * 1024;

/// Reads a source to its end, or until it has given `most` bytes, whichever comes first.
///
/// At the end it answers the bytes, fewer than `most`. It answers `TooLong` exactly where the source gave `most`
/// bytes, and never takes more of them. It answers `Failed` exactly where the source's count of faults rose. Memory is
/// taken as the bytes come.
pub fn read_all<S: Source>(
    alloc: Global,
    source: &mut S,
    most: usize,
) -> Result<Vec<u8>, ReadAllFault>
    // Read to the end.
    ensures whole { IfOk result (λ bytes. GaveAll (S.left source.old) (S.left source.new) bytes.items) }
    ensures short { IfOk result (λ bytes. vec_len bytes < most) }

    // Not read to the end.
    ensures long { result ≡ Err ReadAllFault.TooLong → GaveFirst most (S.left source.old) (S.left source.new) }
    ensures failed { result ≡ Err ReadAllFault.Failed → GaveFewer most (S.left source.old) (S.left source.new) }
    ensures no_memory { result ≡ Err ReadAllFault.NoMemory → GaveFewer most (S.left source.old) (S.left source.new) }

    // There is room for 8,192 bytes and twice those that were read, at most.
    ensures room { IfOk result (λ bytes. vec_capacity bytes ≤ FIRST_READ + 2 * vec_len bytes) }

    // The count of faults rises exactly where it answers Failed, and never falls.
    ensures no_fault { result ≢ Err ReadAllFault.Failed → S.faults source.new ≡ S.faults source.old }
    ensures cause { result ≡ Err ReadAllFault.Failed → Rose (S.faults source.old) (S.faults source.new) }
    ensures later { S.faults source.old ≤ S.faults source.new }
{
    let mut bytes = Vec::new(alloc);
    let mut filled = 0;
    while filled < most {
        let count = read_more(source, &mut bytes, filled, most)?;
        if count == 0 {
            bytes.truncate(filled);
            return Ok(bytes);
        }
        filled += count;
    }
    Err(ReadAllFault::TooLong)
}

/// One read to after the first `filled` bytes. Room is made first, so that no byte is lost where memory is out.
fn read_more<S: Source>(
    source: &mut S,
    bytes: &mut Vec<u8>,
    filled: usize,
    most: usize,
) -> Result<usize, ReadAllFault>
    requires wanted { filled < most }
    requires within { filled ≤ vec_len bytes.old }
    requires bound { vec_capacity bytes.old ≤ most }
    ensures prefix { take filled bytes.new.items ≡ take filled bytes.old.items }
    ensures bound { vec_capacity bytes.new ≤ most }
    ensures room { vec_capacity bytes.new ≤ max (vec_capacity bytes.old) (FIRST_READ + 2 * filled) }
    ensures fits { IfOk result (λ k. filled + k ≤ vec_len bytes.new) }
    ensures given { IfOk result
        (λ k. S.left source.old ≡ prepend_known (take k (drop filled bytes.new.items)) (S.left source.new)) }
    ensures end { IfOk result (λ k. k ≡ 0 → IsAtEnd (S.left source.new)) }
    ensures unchanged { OnErr result (S.left source.new ≡ S.left source.old) }
    ensures not_long { result ≢ Err ReadAllFault.TooLong }
    ensures no_fault { result ≢ Err ReadAllFault.Failed → S.faults source.new ≡ S.faults source.old }
    ensures cause { result ≡ Err ReadAllFault.Failed → Rose (S.faults source.old) (S.faults source.new) }
    ensures later { S.faults source.old ≤ S.faults source.new }
{
    make_room(bytes, filled, most)?;
    let count = source.read(&mut bytes[filled..])?;
    Ok(count)
}

/// Makes the list longer than `filled`, by zeros, at most `most`. Few bytes are zeroed that no read fills, and the
/// list's memory doubles where it grows, so that a byte costs little.
fn make_room(bytes: &mut Vec<u8>, filled: usize, most: usize) -> Result<(), AllocError>
    requires wanted { filled < most }
    requires within { filled ≤ vec_len bytes.old }
    requires bound { vec_capacity bytes.old ≤ most }
    ensures prefix { take filled bytes.new.items ≡ take filled bytes.old.items }
    ensures within { filled ≤ vec_len bytes.new }
    ensures bound { vec_capacity bytes.new ≤ most }
    ensures room { vec_capacity bytes.new ≤ max (vec_capacity bytes.old) (FIRST_READ + 2 * filled) }
    ensures longer { OnOk result (filled < vec_len bytes.new) }
{
    if bytes.len() > filled {
        return Ok(());
    }
    if bytes.capacity() == filled {
        bytes.reserve_exact(filled.max(FIRST_READ).min(most - filled))?;
    }
    let room = bytes.capacity() - filled;
    append_zeros(bytes, room.min(LONGEST_READ));
    Ok(())
}

/// Writes the bytes, all of them. Where the sink fails, a prefix of them was written.
pub fn send<K: Sink>(out: &mut K, bytes: &[u8]) -> Result<(), Failed>
    ensures whole { OnOk result (K.written out.new ≡ append_known (K.written out.old) bytes.now) }
    ensures part { OnErr result (GrewByPrefix (K.written out.old) (K.written out.new) bytes.now) }

    // The count of faults rises exactly where it fails, and never falls.
    ensures no_fault { OnOk result (K.faults out.new ≡ K.faults out.old) }
    ensures cause { OnErr result (Rose (K.faults out.old) (K.faults out.new)) }
    ensures later { K.faults out.old ≤ K.faults out.new }
{
    let mut sent = 0;
    while sent < bytes.len() {
        sent += out.write(&bytes[sent..])?;
    }
    Ok(())
}
