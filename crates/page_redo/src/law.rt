//! What the definitions of redo mean: laws, and no work.

ghost use Rattle.std.specs.Prelude.{◌≡◌, ◌<◌, ◌≤◌, ℕ, List, Some, None, Contains, length};
ghost use Rattle.vec_names.specs.declared.params.Params.{Params as AnyParams};
ghost use Rattle.vec_history.specs.declared.event.Event.{Event as Events};
ghost use Rattle.page_bytes.specs.Content.{Content, item_at};
ghost use Rattle.page_redo.specs.Redo.{changed, touched, named, AreEntriesDropped};

/// A law, and no work. An event fits no page of a block that it does not touch.
pub fn law_elsewhere()
    ensures { (event : Events) (p : AnyParams) (wrap block : ℕ) (page : Content) → ¬ Contains (touched event p) block
        → changed event p wrap block page ≡ None }
{}

/// A law, and no work. An event changes no other item than those that it names, unless entries go and others close up.
pub fn law_others()
    ensures { (event : Events) (p : AnyParams) (wrap block : ℕ) (page after : Content) → changed event p wrap block page ≡ Some after
        → ¬ AreEntriesDropped event → (off : ℕ) → off ≤ length page.items → ¬ Contains (named event p) (block, off)
        → item_at after.items off ≡ item_at page.items off }
{}
