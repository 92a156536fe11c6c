// The text of a reply.
ghost use Rattle.std.specs.Prelude.{◌≡◌, ◌++◌, ◌∷◌, [], codes, decimal, OnOk};
ghost use Rattle.script_words.specs.Commands.{id_word};
ghost use Rattle.script_words.specs.Replies.{count_line, counted, created_line, dist_word, hit_line, hits_text, joined_line, place_word, put_line};
ghost use Rattle.script_words.specs.Replies.{refusal_word, reply_text, stats_line};

use crate::fault::ScriptFault;
use crate::reply::{Counts, Refusal, Reply};
use bit_dist::Dist;
use itoa::{Buffer, Integer};
use std::alloc::AllocError;
use vec_names::{HeapId, Ops, Tid};

/// Appends the text of a reply. Its only error is `Memory`, after which what was appended is not told.
pub fn write_reply(reply: &Reply, into: &mut Vec<u8>) -> Result<(), ScriptFault>
    ensures { OnOk result (into.new.items ≡ into.old.items ++ reply_text reply.now) }
{
    match reply {
        Reply::Nothing => {}
        Reply::Hits { ops, hits } => write_hits(*ops, hits, into)?,
        Reply::Created { blocks, entries } => write_created(*blocks, *entries, into)?,
        Reply::Put { at, level, version } => write_put(*at, *level, *version, into)?,
        Reply::Joined { at } => write_joined(*at, into)?,
        Reply::Stats { counts } => write_stats(*counts, into)?,
        Reply::Refused { why } => write_refusal(*why, into)?,
    }
    Ok(())
}

/// Appends a line for each hit, and one with their count.
pub fn write_hits(ops: Ops, hits: &[(Dist, HeapId)], into: &mut Vec<u8>) -> Result<(), AllocError>
    ensures { OnOk result (into.new.items ≡ into.old.items ++ hits_text ops hits.now) }
{
    for (dist, id) in hits {
        write_hit(ops, *dist, *id, into)?;
    }
    write_count(hits.len(), into)
}

fn write_count(count: usize, into: &mut Vec<u8>) -> Result<(), AllocError>
    ensures { OnOk result (into.new.items ≡ into.old.items ++ count_line count) }
{
    into.extend_from_slice(b"hits ")?;
    write_number(count, into)?;
    into.extend_from_slice(b"\n")
}

fn write_hit(ops: Ops, dist: Dist, id: HeapId, into: &mut Vec<u8>) -> Result<(), AllocError>
    ensures { OnOk result (into.new.items ≡ into.old.items ++ hit_line ops (dist, id)) }
{
    into.extend_from_slice(b"hit ")?;
    write_id(id, into)?;
    into.extend_from_slice(b" ")?;
    write_dist(ops, dist, into)?;
    into.extend_from_slice(b"\n")
}

fn write_dist(ops: Ops, dist: Dist, into: &mut Vec<u8>) -> Result<(), AllocError>
    ensures { OnOk result (into.new.items ≡ into.old.items ++ dist_word ops dist) }
{
    match ops {
        Ops::Hamming => write_number(dist.num, into),
        Ops::Jaccard => {
            write_number(dist.num, into)?;
            into.extend_from_slice(b"/")?;
            write_number(dist.den, into)
        }
    }
}

fn write_id(id: HeapId, into: &mut Vec<u8>) -> Result<(), AllocError>
    ensures { OnOk result (into.new.items ≡ into.old.items ++ id_word id) }
{
    write_number(id.block, into)?;
    into.extend_from_slice(b"/")?;
    write_number(id.off, into)
}

fn write_place(at: Tid, into: &mut Vec<u8>) -> Result<(), AllocError>
    ensures { OnOk result (into.new.items ≡ into.old.items ++ place_word at) }
{
    write_number(at.block, into)?;
    into.extend_from_slice(b"/")?;
    write_number(at.off, into)
}

fn write_created(blocks: u64, entries: u64, into: &mut Vec<u8>) -> Result<(), AllocError>
    ensures { OnOk result (into.new.items ≡ into.old.items ++ created_line blocks entries) }
{
    write_counted(b"created blocks ", blocks, into)?;
    write_counted(b" entries ", entries, into)?;
    into.extend_from_slice(b"\n")?;
    Ok(())
}

fn write_put(at: Tid, level: u8, version: u8, into: &mut Vec<u8>) -> Result<(), AllocError>
    ensures { OnOk result (into.new.items ≡ into.old.items ++ put_line at level version) }
{
    into.extend_from_slice(b"put ")?;
    write_place(at, into)?;
    write_counted(b" level ", u64::from(level), into)?;
    write_counted(b" version ", u64::from(version), into)?;
    into.extend_from_slice(b"\n")
}

fn write_joined(at: Tid, into: &mut Vec<u8>) -> Result<(), AllocError>
    ensures { OnOk result (into.new.items ≡ into.old.items ++ joined_line at) }
{
    into.extend_from_slice(b"joined ")?;
    write_place(at, into)?;
    into.extend_from_slice(b"\n")
}

fn write_stats(counts: Counts, into: &mut Vec<u8>) -> Result<(), AllocError>
    ensures { OnOk result (into.new.items ≡ into.old.items ++ stats_line counts) }
{
    write_counted(b"stats blocks ", counts.blocks, into)?;
    write_counted(b" nodes ", counts.nodes, into)?;
    write_counted(b" live ", counts.live, into)?;
    write_counted(b" doomed ", counts.doomed, into)?;
    write_counted(b" deleted ", counts.deleted, into)?;
    write_counted(b" entries ", counts.entries, into)?;
    into.extend_from_slice(b"\n")?;
    Ok(())
}

fn write_refusal(why: Refusal, into: &mut Vec<u8>) -> Result<(), AllocError>
    ensures { OnOk result (into.new.items ≡ into.old.items ++ refusal_word why) }
{
    match why {
        Refusal::NoIndex => into.extend_from_slice(b"refused no-index\n"),
        Refusal::Exists => into.extend_from_slice(b"refused exists\n"),
        Refusal::Params => into.extend_from_slice(b"refused params\n"),
        Refusal::Dimensions => into.extend_from_slice(b"refused dimensions\n"),
    }
}

fn write_counted(name: &[u8], n: u64, into: &mut Vec<u8>) -> Result<(), AllocError>
    ensures { OnOk result (into.new.items ≡ into.old.items ++ counted name.now n) }
{
    into.extend_from_slice(name)?;
    write_number(n, into)
}

fn write_number<I: Integer>(number: I, into: &mut Vec<u8>) -> Result<(), AllocError>
    ensures { OnOk result (into.new.items ≡ into.old.items ++ I.text number) }
{
    let mut buffer = Buffer::new();
    into.extend_from_slice(buffer.format(number).as_bytes())
}
