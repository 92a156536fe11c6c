//! What an index that was created recovers to: a law, and no work.

ghost use Rattle.std.specs.Prelude.{◌≡◌, ◌≤◌, ◌⊎◌, List, All, None, Ok, length};
ghost use Rattle.index_sizes.specs.declared.limits.TheConstants.{MOST_BLOCKS};
ghost use Rattle.vec_names.specs.declared.params.Params.{Params};
ghost use Rattle.vec_outside.specs.Disk.{Image};
ghost use Rattle.page_bytes.specs.Content.{Content, IsPage};
ghost use Rattle.vec_recover.specs.Creating.{IsNoneOrNew};
ghost use Rattle.vec_recover.specs.Recovering.{AreOf, IsRecovered, RecoversTo, Recovery};

/// A law, and no work. An image that reads as no index or as a new one, whose pages stand for an index with a meta tuple of format
/// 2, recovers to no index, or to these pages and no others.
pub fn law_created()
    ensures { (pages : List Content) (p : Params) (image : Image) → 1 ≤ length pages → length pages ≤ MOST_BLOCKS → All IsPage pages
        → AreOf 2 p pages → IsNoneOrNew pages image
        → RecoversTo image (Ok None) ⊎ ((r : Recovery) × IsRecovered image r × (r.pages ≡ pages) × (r.params ≡ p)) }
{}
