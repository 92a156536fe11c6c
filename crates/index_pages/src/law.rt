//! What one event more makes of an index and of its pages. A function here does no work.

ghost use Rattle.std.specs.Prelude.{◌≡◌, ◌<◌, ◌^◌, ℕ, List, ◌++◌, ◌∷◌, [], true, false};
ghost use Rattle.vec_names.specs.declared.params.Params.{Params as AnyParams};
ghost use Rattle.vec_history.specs.declared.event.Event.{Event as Events};
ghost use Rattle.vec_history.specs.declared.event.Act.{Act as Acts};
ghost use Rattle.vec_history.specs.Acts.{act_of};
ghost use Rattle.vec_history.specs.Settling.{is_lasting};
ghost use Rattle.vec_event.specs.Spelling.{IsWritable};
ghost use Rattle.page_bytes.specs.Content.{Content};
ghost use Rattle.page_redo.specs.Growing.{AreAllRedone};
ghost use Rattle.page_redo.specs.Fitting.{FitsEach};
ghost use Rattle.vec_steps.specs.Index.{Index, IsShaped, IsLegal, IsOfParams};
ghost use Rattle.index_pages.specs.Standing.{AreOf, index_after};

/// A law, and no work. On pages of the index after a legal history, a lasting event that keeps the history legal fits each page
/// that it touches and can be written to the log; and what redo leaves of all of them are the pages of the index after it.
pub fn law_next()
    ensures fits { (p : AnyParams) (pages : List Content) (base : Index) (acts : List Acts) (desk : ℕ) (event : Events)
        → IsShaped base → IsOfParams p base → AreOf p pages (index_after base acts) → is_lasting event ≡ true
        → IsLegal base (acts ++ act_of desk event ∷ []) → FitsEach pages p event }
    ensures written { (p : AnyParams) (pages : List Content) (base : Index) (acts : List Acts) (desk : ℕ) (event : Events)
        → IsShaped base → IsOfParams p base → AreOf p pages (index_after base acts) → is_lasting event ≡ true
        → IsLegal base (acts ++ act_of desk event ∷ []) → IsWritable event }
    ensures stand { (p : AnyParams) (pages after : List Content) (base : Index) (acts : List Acts) (desk number : ℕ) (event : Events)
        → IsShaped base → IsOfParams p base → AreOf p pages (index_after base acts) → is_lasting event ≡ true
        → IsLegal base (acts ++ act_of desk event ∷ []) → number < 2 ^ 64 → AreAllRedone p 255 number event pages after
        → AreOf p after (index_after base (acts ++ act_of desk event ∷ [])) }
{}

/// A law, and no work. A passing event leaves the index as it is.
pub fn law_passing()
    ensures { (base : Index) (acts : List Acts) (desk : ℕ) (event : Events) → is_lasting event ≡ false
        → index_after base (acts ++ act_of desk event ∷ []) ≡ index_after base acts }
{}
