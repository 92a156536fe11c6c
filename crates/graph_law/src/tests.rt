ghost use Rattle.std.specs.Prelude.{◌≡◌, None};
ghost use Rattle.std.specs.FinMap as map;

use crate::*;
use std::alloc::Global;
use std::test::*;
use vec_graph::Graph;
use vec_history::Act;
use vec_names::{Kind, Mapped, Ops, Params};

/// An index that has no node.
fn empty(alloc: Global) -> Graph
    ensures no_nodes { result.nodes ≡ map.empty }
    ensures no_entry { result.entry ≡ None }
    ensures level_0 { result.level ≡ 0 }
    ensures hint_1 { result.hint ≡ 1 }
    ensures one_block { result.blocks ≡ 1 }
{
    Graph {
        params: Params {
            kind: Kind::Hnsw,
            ops: Ops::Hamming,
            bits: 4,
            m: 2,
            ef: 4,
            lists: 0,
        },
        nodes: Mapped::new(alloc),
        entry: None,
        level: 0,
        hint: 1,
        blocks: 1,
    }
}

// An index without nodes is shaped and sound, so the laws hold of it before any act.
#[test]
fn laws_before_any_act(rt: HostRuntime) {
    let base = empty(rt.alloc());
    let acts: [Act; 0] = [];
    law_sound(&base, &acts);
    law_known(&base, &acts);
    law_scan(&base, &acts);
    law_behind_drops(&base, &acts);
    law_cleaned(&base, &acts);
    law_doomed_count(&base, &acts);
    law_place_kept(&base, &acts);
    law_marks(&base, &acts);
    law_examples();
}
