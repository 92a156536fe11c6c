//! The meta tuple, the only item of block 0: what the index is.
#![tactic(auto, unfolding(crate::specs::Reading::meta, crate::specs::Reading::entry_of, crate::specs::Reading::hint_of, crate::specs::Spelling::meta_bytes))]

ghost use Rattle.std.specs.Prelude.{◌≡◌, ◌++◌, length, OnOk, OnErr, IfOk, IfErr, MatchResult};
ghost use Rattle.vec_tuples.specs.Spelling.{meta_bytes, kind_byte, ops_byte, IsMeta};
ghost use Rattle.byte_fields.specs.Answers.{Gives};
ghost use Rattle.vec_tuples.specs.Reading.{entry_of, hint_of, meta};
ghost use Rattle.vec_tuples.specs.Answers.{IsReading, BeginsSome, IsFault};
ghost use Rattle.vec_tuples.specs.declared.meta.Meta.{Meta};

use crate::fault::TupleFault;
use crate::parameters::params;
use byte_fields::{
    Stop, byte_from, four_bytes_from, level_beside, no_place, optional_place, two_bytes_from,
};
use index_sizes::MOST_BLOCKS;
use vec_names::{Kind, Ops, Params, Tid};

/// The four bytes that a meta tuple begins with.
const MAGIC: u32 = 0x4249_5456;

/// What block 0 says of an index.
#[derive(Clone, Copy, Debug, PartialEq, Eq)]
pub struct Meta {
    /// The form of the file, 1 or 2.
    pub format: u16,
    pub params: Params,
    /// The element at which a search of a graph begins, None for an empty graph and for lists.
    pub entry: Option<Tid>,
    /// The entry's level, 0 where there is none.
    pub level: u8,
    /// For a graph, the block from 1 to 32,768 at which a search for room begins; 0 for lists.
    pub hint: u32,
}

/// The meta tuple that these bytes spell, all of them. It takes no memory and never answers `Memory`.
///
/// `Bad` exactly where no meta tuple has these bytes, at the first field whose value is not allowed beside
/// the fields before it, or at or in which the bytes end; at 32 where more bytes follow. The fields are the
/// magic number at 0, the format at 4, the kind at 6, the distance at 7, the bits of a value at 8, m at 12,
/// ef at 14, the number of lists at 16, the entry at 20, its level at 26, a zero at 27 and the hint at 28.
pub fn read_meta(bytes: &[u8]) -> Result<Meta, TupleFault>
    // What is read is spelled so.
    ensures spelled { IfOk result (λ m. IsMeta m × (bytes.now ≡ meta_bytes m)) }

    // What is spelled so is read.
    ensures read { (m : Meta) → IsMeta m → bytes.now ≡ meta_bytes m → MatchResult result (λ x. x ≡ m) (λ _. ⊥) }

    // The fault that it is, field by field.
    ensures exact { IsReading meta bytes.now result }

    // The bytes before it begin some tuple.
    ensures start { IfErr result (BeginsSome IsMeta meta_bytes bytes.now) }
    ensures memory { IfErr result IsFault }
{
    match meta_tuple(bytes) {
        Ok((meta, rest)) => {
            if rest.is_empty() {
                Ok(meta)
            } else {
                Err(TupleFault::Bad {
                    at: (bytes.len() - rest.len()) as u16,
                })
            }
        }
        Err(stop) => Err(TupleFault::Bad {
            at: (bytes.len() - stop.left) as u16,
        }),
    }
}

fn meta_tuple(bytes: &[u8]) -> Result<(Meta, &[u8]), Stop>
    ensures { Gives (λ x. (x.0, x.1.now)) result (meta bytes.now) }
{
    let (_, rest) = four_bytes_from(MAGIC, MAGIC, bytes)?;
    let (format, rest) = two_bytes_from(1, 2, rest)?;
    let (params, rest) = params(rest)?;
    let (entry, rest) = entry_of(params.kind, rest)?;
    let (level, rest) = level_beside(entry, rest)?;
    let (_, rest) = byte_from(0, 0, rest)?;
    let (hint, rest) = hint_of(params.kind, rest)?;
    let meta = Meta {
        format,
        params,
        entry,
        level,
        hint,
    };
    Ok((meta, rest))
}

/// Lists have no entry.
fn entry_of(kind: Kind, bytes: &[u8]) -> Result<(Option<Tid>, &[u8]), Stop>
    ensures { Gives (λ x. (x.0, x.1.now)) result (entry_of kind bytes.now) }
{
    match kind {
        Kind::Hnsw => optional_place(bytes),
        Kind::Ivf => no_place(bytes),
    }
}

fn hint_of(kind: Kind, bytes: &[u8]) -> Result<(u32, &[u8]), Stop>
    ensures { Gives (λ x. (x.0, x.1.now)) result (hint_of kind bytes.now) }
{
    match kind {
        Kind::Hnsw => four_bytes_from(1, MOST_BLOCKS, bytes),
        Kind::Ivf => four_bytes_from(0, 0, bytes),
    }
}

/// Appends the spelling of a meta tuple, 32 bytes. The only fault is `Memory`, and then the bytes are as
/// before.
pub fn write_meta(meta: &Meta, into: &mut Vec<u8>) -> Result<(), TupleFault>
    requires { IsMeta meta.now }
    ensures ok { OnOk result (into.new.items ≡ into.old.items ++ meta_bytes meta.now) }
    ensures err { OnErr result (into.new.items ≡ into.old.items) }
    ensures memory { IfErr result (λ fault. fault ≡ TupleFault.Memory) }
{
    into.extend_from_slice(&spelled(*meta))?;
    Ok(())
}

/// Writes the spelling of a meta tuple over 32 bytes. It takes no memory.
pub fn fill_meta(meta: &Meta, into: &mut [u8])
    requires meta { IsMeta meta.now }
    requires long { length into.old ≡ 32 }
    ensures { into.new ≡ meta_bytes meta.now }
{
    into.copy_from_slice(&spelled(*meta));
}

fn spelled(meta: Meta) -> [u8; 32]
    ensures { result ≡ meta_bytes meta }
{
    let a = MAGIC.to_le_bytes();
    let f = meta.format.to_le_bytes();
    let kind = kind_byte(meta.params.kind);
    let ops = ops_byte(meta.params.ops);
    let b = meta.params.bits.to_le_bytes();
    let m = meta.params.m.to_le_bytes();
    let e = meta.params.ef.to_le_bytes();
    let l = meta.params.lists.to_le_bytes();
    let p = Tid::spelled_option(meta.entry);
    let h = meta.hint.to_le_bytes();
    [
        a[0], a[1], a[2], a[3], f[0], f[1], kind, ops, b[0], b[1], b[2], b[3], m[0], m[1], e[0],
        e[1], l[0], l[1], l[2], l[3], p[0], p[1], p[2], p[3], p[4], p[5], meta.level, 0, h[0],
        h[1], h[2], h[3],
    ]
}

fn kind_byte(kind: Kind) -> u8
    ensures { result ≡ kind_byte kind }
{
    match kind {
        Kind::Hnsw => 1,
        Kind::Ivf => 2,
    }
}

fn ops_byte(ops: Ops) -> u8
    ensures { result ≡ ops_byte ops }
{
    match ops {
        Ops::Hamming => 1,
        Ops::Jaccard => 2,
    }
}
