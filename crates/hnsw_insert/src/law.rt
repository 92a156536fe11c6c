//! The row of an insert: a law. The function here does no work.

ghost use Rattle.std.specs.Prelude.{ℕ, Bool, List};
ghost use Rattle.vec_names.specs.declared.heap_id.HeapId.{HeapId as Ids};
ghost use Rattle.vec_names.specs.Levels.{level_of};
ghost use Rattle.vec_history.specs.declared.event.Act.{Act};
ghost use Rattle.hnsw_insert.specs.declared.landing.Inserted.{Inserted as Done};
ghost use Rattle.hnsw_insert.specs.Whole.{HasOneRow, Inserts};

use vec_steps::Steps;

/// A law, and no work. An insert has exactly one Put or Join among its own acts. It is a Join of the row's id, by the node that is
/// told; or it is the Put of the node that is told, with the row's id and value and the level of the word.
pub fn law_one_row<S: Steps>(steps: &S)
    ensures { (old new : List Act) (id : Ids) (bits : List Bool) (word : ℕ) (inserted : Done)
        → Inserts (S.stands steps.now) (S.desk steps.now) old new id bits word inserted
        → HasOneRow (S.desk steps.now).number old new id bits (level_of word (S.desk steps.now).params.m) inserted }
{}
