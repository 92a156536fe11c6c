// The whole source, and a text to the sink.
ghost use Rattle.std.specs.Prelude.{◌≡◌, ◌+◌, ◌-◌, ◌^◌, ◌<◌, ◌≤◌, length, IfOk, OnOk, OnErr};
ghost use Rattle.std.specs.Io.KnownBytes.{Appends, Consumes, IsAtEnd};
ghost use Rattle.vec_outside.specs.Causes.{HasCause};
ghost use Rattle.vec_run.specs.Exact.{AppendsFront, ReadsMore, TakesAtMost};

use script_words::MOST_BYTES;
use std::alloc::{AllocError, Global};
use vec_outside::{Outage, Sink, Source};

// The most bytes of one read.
const PIECE: usize = 1 << 16;

/// All that is left of a source, or its first 2^28 + 1 bytes, in pieces of 64 KiB.
pub fn read_whole<S: Source>(alloc: Global, source: &mut S) -> Result<Vec<u8>, Outage>
    ensures bytes { IfOk result (λ bytes. Consumes (S.left source.old) (S.left source.new) bytes.items) }
    ensures whole { IfOk result (λ bytes. length bytes.items ≤ 2 ^ 28 → IsAtEnd (S.left source.new)) }
    ensures most { IfOk result (λ bytes. length bytes.items ≤ 2 ^ 28 + 1) }
    ensures taken { TakesAtMost (2 ^ 28 + 1) (S.left source.old) (S.left source.new) }
    ensures cause { HasCause (S.count source.old) (S.count source.new) result }
{
    let mut bytes = Vec::new(alloc);
    let mut piece = zeros(alloc, PIECE)?;
    'pieces: while bytes.len() <= MOST_BYTES {
        let more = read_piece(source, &mut piece, &mut bytes)?;
        if !more {
            return Ok(bytes);
        }
    }
    Ok(bytes)
}

fn zeros(alloc: Global, size: usize) -> Result<Vec<u8>, AllocError>
    requires { 0 < size }
    ensures { IfOk result (λ piece. 0 < length piece.items) }
{
    vec![in alloc; 0u8; size]
}

// Reads once, and appends what came; whether something came.
fn read_piece<S: Source>(
    source: &mut S,
    piece: &mut [u8],
    bytes: &mut Vec<u8>,
) -> Result<bool, Outage>
    requires room { 0 < length piece.old }
    requires few { length bytes.old.items ≤ 2 ^ 28 }
    ensures ok { IfOk result (λ more. ReadsMore (S.left source.old) (S.left source.new) bytes.old.items bytes.new.items more) }
    ensures taken { TakesAtMost (2 ^ 28 + 1 - length bytes.old.items) (S.left source.old) (S.left source.new) }
    ensures cause { HasCause (S.count source.old) (S.count source.new) result }
{
    let room = piece.len().min(MOST_BYTES + 1 - bytes.len());
    let count = source.read(&mut piece[..room])?;
    bytes.extend_from_slice(&piece[..count])?;
    Ok(count > 0)
}

/// Writes a text, in as large pieces as the sink takes; at an error a front of it was written.
pub fn write_whole<K: Sink>(sink: &mut K, text: &[u8]) -> Result<(), Outage>
    ensures ok { OnOk result (Appends (K.held sink.old) (K.held sink.new) text.now) }
    ensures err { OnErr result (AppendsFront (K.held sink.old) (K.held sink.new) text.now) }
    ensures cause { HasCause (K.count sink.old) (K.count sink.new) result }
{
    let mut done = 0;
    while done < text.len() {
        done += sink.write(&text[done..])?;
    }
    Ok(())
}
