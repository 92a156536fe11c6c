//! The order of places and of rows.

ghost use Rattle.std.specs.Prelude.{◌≡◌};
ghost use Rattle.vec_names.specs.declared.heap_id.HeapId.{HeapId};
ghost use Rattle.vec_names.specs.declared.tid.Tid.{Tid};
ghost use Rattle.vec_names.specs.Order.{heap_id_cmp, tid_cmp};

/// A law, and no work: `cmp` compares places and rows by block, and then by offset.
pub fn law_ordered_by_block()
    ensures places { (a b : Tid) → ⟦<crate::tid::Tid as Ord>⟧.cmp a b ≡ tid_cmp a b }
    ensures rows { (a b : HeapId) → ⟦<crate::heap_id::HeapId as Ord>⟧.cmp a b ≡ heap_id_cmp a b }
{}
