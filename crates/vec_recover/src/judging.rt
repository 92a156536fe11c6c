//! Which index pages stand for.

ghost use Rattle.std.specs.Prelude.{All, ◌≡◌, ◌≤◌, ◌*◌, IfOk, IfErr, IfSome, length, slice_get};
ghost use Rattle.std.specs.Option.{option_and_then};
ghost use Rattle.index_sizes.specs.declared.limits.TheConstants.{MOST_BLOCKS};
ghost use Rattle.vec_names.specs.Params.{IsInRange};
ghost use Rattle.vec_names.specs.declared.params.Kind.TheVariants.{Hnsw, Ivf};
ghost use Rattle.index_sizes.specs.declared.limits.TheConstants.{PAGE_SIZE};
ghost use Rattle.vec_outside.specs.declared.disks.Area.TheVariants.{Pages};
ghost use Rattle.page_log.specs.declared.opening_fault.OpenFault.TheVariants.{NotIndex};
ghost use Rattle.page_bytes.specs.Content.{IsPage};
ghost use Rattle.vec_recover.specs.Recovering.{AreOf, IsLowestBroken, meta_in};
ghost use Rattle.vec_recover.specs.Parts.{IsOfBlock, IsBlockFault, IsJudged, IsNoDisk};

use graph_pages::graph_of;
use index_sizes::PAGE_SIZE;
use ivf_pages::ivf_of;
use page_bytes::Page;
use page_log::OpenFault;
use page_redo::{GraphFault, meta_at};
use std::alloc::Global;
use vec_names::{Kind, Params};
use vec_outside::Area;
use vec_tuples::Meta;

// By this block the pages are no index.
fn by_block(block: u32) -> OpenFault
    ensures { result ≡ NotIndex Pages (PAGE_SIZE * block) }
{
    OpenFault::NotIndex {
        area: Area::Pages,
        at: PAGE_SIZE as u64 * u64::from(block),
    }
}

fn fault_by(fault: GraphFault) -> OpenFault
    ensures { IsBlockFault fault result }
{
    match fault {
        GraphFault::Memory => OpenFault::Memory,
        GraphFault::Bad { block } => by_block(block),
    }
}

// The meta tuple of block 0.
fn first_meta(pages: &[Page]) -> Option<Meta>
    ensures told { result ≡ meta_in pages.now }
    ensures in_range { IfSome result (λ m. IsInRange m.params) }
{
    match pages.first() {
        Some(page) => meta_at(page),
        None => None,
    }
}

// No block breaks a rule of pages of a graph, or else the lowest that does.
fn judge_nodes(alloc: Global, pages: &[Page]) -> Result<(), GraphFault>
    requires { length pages.now ≤ MOST_BLOCKS }
    ensures { IsJudged Hnsw pages.now result }
{
    match graph_of(alloc, pages) {
        Ok(graph) => {
            drop(graph);
            Ok(())
        }
        Err(fault) => Err(fault),
    }
}

// The same of pages of lists.
fn judge_lists(alloc: Global, pages: &[Page]) -> Result<(), GraphFault>
    requires { length pages.now ≤ MOST_BLOCKS }
    ensures { IsJudged Ivf pages.now result }
{
    match ivf_of(alloc, pages) {
        Ok(graph) => {
            drop(graph);
            Ok(())
        }
        Err(fault) => Err(fault),
    }
}

fn judge(alloc: Global, pages: &[Page], kind: Kind) -> Result<(), GraphFault>
    requires { length pages.now ≤ MOST_BLOCKS }
    ensures { IsJudged kind pages.now result }
{
    match kind {
        Kind::Hnsw => judge_nodes(alloc, pages),
        Kind::Ivf => judge_lists(alloc, pages),
    }
}

/// Each page is one that has bytes. It tells this, and does nothing.
pub(crate) fn have_bytes(pages: &[Page])
    ensures { All IsPage pages.now }
{
    for page in pages {
        let _ = page.bytes();
    }
}

/// The parameters of the index for which the pages stand, with a meta tuple of this format. `NotIndex` names the lowest block by
/// which they do not.
pub(crate) fn params_of(alloc: Global, pages: &[Page], form: u8) -> Result<Params, OpenFault>
    requires { length pages.now ≤ MOST_BLOCKS }
    ensures ok { IfOk result (λ p. AreOf form p pages.now) }
    ensures err { IfErr result (IsOfBlock (IsLowestBroken form pages.now)) }
    ensures calm { IfErr result IsNoDisk }
    ensures in_range { IfOk result IsInRange }
{
    let Some(meta) = first_meta(pages) else {
        return Err(by_block(0));
    };
    if meta.format != u16::from(form) {
        return Err(by_block(0));
    }
    match judge(alloc, pages, meta.params.kind) {
        Ok(()) => Ok(meta.params),
        Err(fault) => Err(fault_by(fault)),
    }
}
