//! What the definition of a search means: laws, and no work.

ghost use Rattle.std.specs.Prelude.{◌≡◌, ◌↔◌, ◌<◌, ◌≤◌, ℕ, Bool, true, false, List, [], ◌∷◌, ◌++◌, length, map, take, slice_get, Option, Some, None};
ghost use Rattle.neighbour_pick.specs.declared.found.Found.{Found as Elements};
ghost use Rattle.vec_names.specs.declared.tid.Tid.{Tid};
ghost use Rattle.vec_names.specs.declared.params.Ops.{Ops};
ghost use Rattle.graph_search.specs.Reads.{Look, Answer, AreReadAt};
ghost use Rattle.graph_search.specs.Scan.{Given, Mode, Standing, FirstBatch, NextBatch, IsTold};
ghost use Rattle.graph_search.specs.Scan.{IsRowRead, IsPresent, Held, HoldsAfter, after_batch, after_turn, AreNamed, is_over, GoesOnTo, begins_with};
ghost use Rattle.graph_search.specs.ByHolding.{FirstByHolding, NextByHolding, StandsHolding, HoldTheSame, IsTurnOf, AreTurnsOf, after_turns};
ghost use Rattle.vec_names.specs.declared.params.Params.{Params as Parameters};
ghost use Rattle.vec_names.specs.declared.heap_id.HeapId.{HeapId};
ghost use Rattle.vec_history.specs.declared.event.Event.TheVariants.{Join};
ghost use Rattle.vec_graph.specs.declared.place.Place.{Place as Places};
ghost use Rattle.vec_history.specs.declared.event.Act.{Act as Acts};
ghost use Rattle.vec_graph.specs.declared.graph.Graph.{Graph as Graphs};
ghost use Rattle.vec_graph.specs.Places.{place_on};
ghost use Rattle.vec_graph.specs.Rules.{IsPlaced};
ghost use Rattle.vec_graph.specs.Asking.{IsFresh, TakesAnId};
ghost use Rattle.graph_search.specs.Deeds.{NewNode, Joins, PutsOn, PutsNew, Links, Done, Placed, NoRoom, Stale};
ghost use Rattle.graph_search.specs.Deeds.{Deed, Change, Reply, asked, GotItsWord, looks_of, events_of, rows_made, reply_of, HoldsInSlot, AreDoneAt};
ghost use Rattle.graph_search.specs.Deeds.{DidBetween};
ghost use Rattle.graph_search.specs.Insert.{Newcomer, InsertLists, may_join, Outcome, Joined, Put, WholeInsert, PutsWhatItFound};
ghost use Rattle.std.specs.declared.cmp.Ordering.TheVariants.{Less};
ghost use Rattle.vec_names.specs.Order.{tid_cmp};
ghost use Rattle.vec_names.specs.Levels.{level_of};
ghost use Rattle.graph_search.specs.Search.{Start, Bounds, Turn, IsTurn, is_halted, LayerSearch, IsMet, AreExact, is_live, is_before, course_reads};
ghost use Rattle.graph_search.specs.Search.{known, place_of};
ghost use Rattle.graph_search.specs.Examples.{Stand, zeros, last_two, last_three, last_one, element_at, from_first, three_turns};
ghost use Rattle.graph_search.specs.Examples.{one_turn, from_nearest, turns_through, no_entry_reads, gone_entry_reads, nothing_found, no_lists};
ghost use Rattle.graph_search.specs.Examples.{first_insert, first_events};
ghost use Rattle.bit_dist.specs.declared.dist.Dist.{Dist};
ghost use Rattle.bit_dist.specs.Distances.{hamming_of};
ghost use Rattle.vec_names.specs.declared.params.Ops.TheVariants.{Hamming};
ghost use Rattle.graph_search.specs.Scan.{Relaxed, Strict, GoesOn, is_less};
ghost use Rattle.graph_search.specs.Batches.{first, second, third, list_place, row_1, row_2, row_3, told_as, given_of, look_again};
ghost use Rattle.graph_search.specs.Batches.{first_reads, after_first, second_reads, after_second, after_third, before_reuse, after_reuse};
ghost use Rattle.graph_search.specs.Reads.{AtList, Gone};
ghost use Rattle.graph_search.specs.Insert.{LinksBack, Lists, PutsNode, Target};
ghost use Rattle.graph_search.specs.Deeds.{Hints};
ghost use Rattle.graph_search.specs.InsertRules.{TriedThrice, EntersWhereAbove, hintings};
ghost use Rattle.graph_search.specs.ThirdInsert.{third_node, third_reads, third_lists, third_target, third_links};

/// A law, and no work. The search of one layer gives at most ef elements, each of which was live as it was read, and none
/// of which comes after one that is farther: they rise by distance, and then by place. Each
/// is one that the search began from, or a look of it told it; and where the distances that it began from are exact, all are.
pub fn law_search()
    ensures few { (s : Start) (ef : ℕ) (reads : List (Look × Answer)) (result : List Elements) → LayerSearch s ef reads result
        → length result ≤ ef }
    ensures live { (s : Start) (ef : ℕ) (reads : List (Look × Answer)) (result : List Elements) → LayerSearch s ef reads result
        → (i : ℕ) (e : Elements) → slice_get result i ≡ Some e → is_live e ≡ true }
    ensures rising { (s : Start) (ef : ℕ) (reads : List (Look × Answer)) (result : List Elements) → LayerSearch s ef reads result
        → (i j : ℕ) (e f : Elements) → i < j → slice_get result i ≡ Some e → slice_get result j ≡ Some f → is_before f e ≡ true → ⊥ }
    ensures met { (s : Start) (ef : ℕ) (reads : List (Look × Answer)) (result : List Elements) → LayerSearch s ef reads result
        → (i : ℕ) (e : Elements) → slice_get result i ≡ Some e → IsMet s reads e }
    ensures exact { (s : Start) (ef : ℕ) (reads : List (Look × Answer)) (result : List Elements) → AreExact s.ops s.query s.from
        → LayerSearch s ef reads result → AreExact s.ops s.query result }
{}

/// A law, and no work. A worked example: of three nodes of the values 0000, 0011 and 0111, whose places rise, a search for
/// 0001 from the first with ef 4 expands all three and finds them in this order, at the distances 1, 1 and 2.
pub fn law_worked_search()
    ensures { (a b c : Stand) → tid_cmp a.at b.at ≡ Less → tid_cmp a.at c.at ≡ Less → tid_cmp b.at c.at ≡ Less
        → LayerSearch (from_first a) 4 (course_reads 0 (three_turns a b c))
        (element_at a zeros ∷ element_at b last_two ∷ element_at c last_three ∷ []) }
{}

/// A law, and no work. The same three nodes with ef 1: the first is expanded, is found, and is nearer than what it names, or
/// as near and at a lower place. So the search ends with it. One that goes on, or keeps one more, is no search.
pub fn law_worked_search_of_one()
    ensures { (a b c : Stand) → tid_cmp a.at b.at ≡ Less → tid_cmp a.at c.at ≡ Less → tid_cmp b.at c.at ≡ Less
        → LayerSearch (from_first a) 1 (course_reads 0 (one_turn a b c)) (element_at a zeros ∷ []) }
{}

/// A law, and no work. A node that lost its rows is walked through and not kept: 0001 names 1111, which has no row, and that
/// names 0011. A search for 0001 with ef 4 expands all three, and finds the first and the last, at the distances 0 and 1. The
/// one between is farther than all found when it is expanded, since fewer than ef are.
pub fn law_worked_search_through()
    ensures { (a b c : Stand) → tid_cmp a.at b.at ≡ Less → tid_cmp a.at c.at ≡ Less → tid_cmp b.at c.at ≡ Less
        → LayerSearch (from_nearest a) 4 (course_reads 0 (turns_through a b c)) (element_at a last_one ∷ element_at c last_two ∷ []) }
{}

/// A law, and no work. An index without an entry point, and one whose entry point is gone by the time that it is looked at, are
/// the same to a scan and to an insert: the first batch has no row and is the last, and a new node has no neighbour. No
/// further look is made.
pub fn law_no_entry()
    ensures scan_of_none { (ops : Ops) (query : List Bool) (ef hint blocks : ℕ)
        → FirstBatch ops query ef (no_entry_reads hint blocks) [] true (nothing_found ops query) }
    ensures scan_of_gone { (ops : Ops) (query : List Bool) (ef : ℕ) (at : Tid) (level hint blocks : ℕ)
        → FirstBatch ops query ef (gone_entry_reads at level hint blocks) [] true (nothing_found ops query) }
    ensures lists_of_none { (n : Newcomer) (hint blocks : ℕ) → InsertLists n (no_entry_reads hint blocks) None (no_lists n) }
    ensures lists_of_gone { (n : Newcomer) (at : Tid) (level hint blocks : ℕ)
        → InsertLists n (gone_entry_reads at level hint blocks) None (no_lists n) }
{}

/// A law, and no work. A whole insert gives the index one row. Where an element took the id, that is its one event of a row,
/// and the element had the row's value, and from 1 to 9 ids as it was read. Else it is one Put, of what the insert found.
pub fn law_insert()
    ensures joins { (params : Parameters) (id : HeapId) (bits : List Bool) (word : ℕ) (e : Elements) (deeds : List Deed)
        → WholeInsert params id bits word (Joined e) deeds → rows_made params.m deeds ≡ Join e.at e.version id ∷ [] }
    ensures equal { (params : Parameters) (id : HeapId) (bits : List Bool) (word : ℕ) (e : Elements) (deeds : List Deed)
        → WholeInsert params id bits word (Joined e) deeds → may_join bits e ≡ true }
    ensures same_value { (bits : List Bool) (e : Elements) → may_join bits e ≡ true → length e.bits ≡ length bits → e.bits ≡ bits }
    ensures room { (bits : List Bool) (e : Elements) → may_join bits e ≡ true → (1 ≤ length e.ids.items) × (length e.ids.items ≤ 9) }
    ensures puts { (params : Parameters) (id : HeapId) (bits : List Bool) (word : ℕ) (place : Places) (deeds : List Deed)
        → WholeInsert params id bits word (Put place) deeds → PutsWhatItFound params id bits word place deeds }
{}

/// A law, and no work. Three rules of an insert. Each neighbour is looked at, and asked at most three times; it is left sooner only
/// where it names the newcomer, is not as it was read, or has no list or no slot for it. A new node becomes the entry point
/// where there is none or the node's level is above it, and never at the same level or below. A node above the lowest level moves
/// no hint; one of the lowest level moves it where its block is not the hint, and only there.
pub fn law_insert_rules()
    ensures tries { (t : Target) (layer : ℕ) (e : Elements) (picks : List (ℕ × Elements)) (deeds : List Deed)
        → LinksBack t ((layer, e) ∷ picks) deeds → TriedThrice t layer e picks deeds }
    ensures enters { (params : Parameters) (id : HeapId) (bits : List Bool) (word : ℕ) (place : Places) (deeds : List Deed)
        → WholeInsert params id bits word (Put place) deeds → EntersWhereAbove params id bits word place deeds }
    ensures no_hint { (params : Parameters) (id : HeapId) (bits : List Bool) (word : ℕ) (place : Places) (deeds : List Deed)
        → WholeInsert params id bits word (Put place) deeds → 1 ≤ level_of word params.m → hintings deeds ≡ [] }
    ensures hint_moves { (n : Newcomer) (id : HeapId) (hint blocks : ℕ) (top : Option ℕ) (lists : Lists) (place : Places)
        (deeds : List Deed) → PutsNode n id hint blocks top lists place deeds → n.level ≡ 0 → (place.at.block ≡ hint → ⊥)
        → hintings deeds ≡ asked (Hints place.at.block) Done ∷ [] }
    ensures hint_stays { (n : Newcomer) (id : HeapId) (hint blocks : ℕ) (top : Option ℕ) (lists : Lists) (place : Places)
        (deeds : List Deed) → PutsNode n id hint blocks top lists place deeds → place.at.block ≡ hint → hintings deeds ≡ [] }
{}

/// A law, and no work. Deeds that are looks alone are reads of the history; each change got its word by the state at its own
/// position, where its event, if it was done, is the desk's act; and what a desk did between two positions, and then between the
/// second and a third, it did between the first and the third.
pub fn law_deeds()
    ensures looks { (base : Graphs) (acts : List Acts) (desk : ℕ) (positions : List ℕ) (reads : List (Look × Answer))
        → AreReadAt base acts positions reads ↔ AreDoneAt base acts desk positions (looks_of reads) }
    ensures words { (base : Graphs) (acts : List Acts) (desk : ℕ) (positions : List ℕ) (deeds : List Deed) (number : ℕ) (change : Change)
        (reply : Reply) → AreDoneAt base acts desk positions deeds → slice_get deeds number ≡ Some (asked change reply)
        → GotItsWord base acts desk positions number change reply }
    ensures together { (base : Graphs) (acts : List Acts) (desk low mid high : ℕ) (first second : List Deed)
        → DidBetween base acts desk low mid first → DidBetween base acts desk mid high second
        → DidBetween base acts desk low high (first ++ second) }
{}

/// A law, and no work. What the word to a change says of the graph that it is asked of: where it is done, just what the
/// rules ask of that event beside the desk's gates and knowledge; where it is Stale, that the node is not as it was read;
/// where there is no room, that the block has no place.
pub fn law_words()
    ensures joins { (g : Graphs) (at : Tid) (version : ℕ) (id : HeapId) → reply_of g (Joins at version id) ≡ Done → TakesAnId g at version }
    ensures stale_join { (g : Graphs) (at : Tid) (version : ℕ) (id : HeapId) → reply_of g (Joins at version id) ≡ Stale
        → IsFresh g at version → ⊥ }
    ensures links { (g : Graphs) (at : Tid) (version : ℕ) (list_at : Tid) (level layer slot : ℕ) (held : Option Tid) (to : Tid)
        → reply_of g (Links at list_at level version layer slot held to) ≡ Done → IsFresh g at version }
    ensures held { (g : Graphs) (at : Tid) (version : ℕ) (list_at : Tid) (level layer slot : ℕ) (held : Option Tid) (to : Tid)
        → reply_of g (Links at list_at level version layer slot held to) ≡ Done → HoldsInSlot g at layer slot held }
    ensures stale_link { (g : Graphs) (at : Tid) (version : ℕ) (list_at : Tid) (level layer slot : ℕ) (held : Option Tid) (to : Tid)
        → reply_of g (Links at list_at level version layer slot held to) ≡ Stale → IsFresh g at version → ⊥ }
    ensures placed { (g : Graphs) (node : NewNode) (place : Places) (block : ℕ) → reply_of g (PutsOn block node) ≡ Placed place
        → IsPlaced g place.at node.level place }
    ensures placed_new { (g : Graphs) (node : NewNode) (place : Places) → reply_of g (PutsNew node) ≡ Placed place
        → IsPlaced g place.at node.level place }
    ensures no_room { (g : Graphs) (node : NewNode) (block : ℕ) → reply_of g (PutsOn block node) ≡ NoRoom
        → place_on g block node.level ≡ None }
{}

/// A law, and no work. A worked example: the first row of an index of one block, whose new node stands on block 1, where the
/// hint is. The gate is taken twice, since the node becomes the entry point; it is put with empty lists; no hint is moved.
pub fn law_worked_insert()
    ensures deeds { (params : Parameters) (id : HeapId) (bits : List Bool) (word : ℕ) (place : Places) → place.at.block ≡ 1
        → WholeInsert params id bits word (Put place) (first_insert params id bits word place) }
    ensures events { (params : Parameters) (id : HeapId) (bits : List Bool) (word : ℕ) (place : Places)
        → events_of params.m (first_insert params id bits word place) ≡ first_events params id bits word place }
{}

/// A law, and no work. Each row of a batch was read in it: one of its looks told the row's element, with the row among those
/// of the element. That holds of a next batch too, which looks anew at what it met before. And an element that a read of a
/// history told was present when it was read: a node that was not deleted stood there, with this version, these rows and this
/// value, from which its distance is.
pub fn law_batches()
    ensures first { (ops : Ops) (query : List Bool) (ef : ℕ) (reads : List (Look × Answer)) (given : List Given) (end : Bool)
        (now : Standing) → FirstBatch ops query ef reads given end now → (i : ℕ) (g : Given) → slice_get given i ≡ Some g
        → IsRowRead ops query reads g }
    ensures next { (ef most : ℕ) (mode : Mode) (old : Standing) (reads : List (Look × Answer)) (given : List Given) (end : Bool)
        (now : Standing) → NextBatch ef most mode old reads given end now
        → (i : ℕ) (g : Given) → slice_get given i ≡ Some g → IsRowRead old.start.ops old.start.query reads g }
    ensures present { (base : Graphs) (acts : List Acts) (ops : Ops) (query : List Bool) (positions : List ℕ)
        (reads : List (Look × Answer)) (e : Elements) → AreReadAt base acts positions reads → IsTold ops query reads e
        → IsPresent base acts ops query e }
{}

/// A law, and no work. A search can hold its course in what `HoldsAfter` names: where it begins that is known, whether it
/// is over can be told from it, and so can what it holds once a batch has taken the first of those found, and after one
/// turn more. A layer's search, and the search of a next batch, each go on so.
pub fn law_going_on()
    ensures begins { (s : Start) → HoldsAfter s [] [] [] (begins_with s) }
    ensures over { (s : Start) (turns : List Turn) (taken : List Tid) (earlier : List Elements) (h : Held) (ef : ℕ) (most : Option ℕ)
        → HoldsAfter s turns taken earlier h
        → is_over ef most h ≡ is_halted s (record { ef = ef; taken = taken; most = most }) turns }
    ensures taken { (s : Start) (turns : List Turn) (taken : List Tid) (earlier : List Elements) (h : Held) (ef : ℕ)
        → HoldsAfter s turns taken earlier h
        → HoldsAfter s turns (taken ++ map place_of (take ef (map (λ p. p.0) h.found))) (known s turns) (after_batch ef h) }
    ensures turn { (s : Start) (b : Bounds) (turns : List Turn) (t : Turn) (taken : List Tid) (earlier : List Elements) (h : Held)
        → HoldsAfter s turns taken earlier h → AreNamed s turns taken earlier → IsTurn s b turns t
        → HoldsAfter s (turns ++ t ∷ []) taken earlier (after_turn s t h) }
    ensures named_begins { (s : Start) → AreNamed s [] [] [] }
    ensures named_taken { (s : Start) (turns : List Turn) (taken : List Tid) (earlier : List Elements) (h : Held) (ef : ℕ)
        → HoldsAfter s turns taken earlier h → AreNamed s turns taken earlier
        → AreNamed s turns (taken ++ map place_of (take ef (map (λ p. p.0) h.found))) (known s turns) }
    ensures named_turn { (s : Start) (b : Bounds) (turns : List Turn) (t : Turn) (taken : List Tid) (earlier : List Elements)
        → AreNamed s turns taken earlier → IsTurn s b turns t → AreNamed s (turns ++ t ∷ []) taken earlier }
    ensures search { (s : Start) (ef : ℕ) (reads : List (Look × Answer)) (result : List Elements) (search : LayerSearch s ef reads result)
        → GoesOnTo s ef None [] [] reads search.turns }
    ensures batch { (ef most : ℕ) (mode : Mode) (old : Standing) (reads : List (Look × Answer)) (given : List Given) (end : Bool)
        (now : Standing) (b : NextBatch ef most mode old reads given end now) → old.start.layer ≡ 0
        → GoesOnTo old.start ef (Some most) old.turns old.taken (course_reads 0 b.more) b.more }
{}

/// A law, and no work. The batches of a scan are what they are by what code can hold: a first batch is just one from what a search
/// holds where it begins, and where a scan stands and holds `h`, a next batch is just one from `h`. So the first ef of the held
/// found ones are the batch, and its end is told from them. What is held after a batch is `after_batch` of what was held when the
/// search was over, and the scan stands holding that. Whatever holds the same will do (`same`), and one turn more may be told
/// from it and held after it (`turn`, `turned`): so a program can go on from turn to turn by what it holds alone.
pub fn law_batches_by_holding()
    ensures first { (ops : Ops) (query : List Bool) (ef : ℕ) (reads : List (Look × Answer)) (given : List Given) (end : Bool)
        (now : Standing)
        → FirstBatch ops query ef reads given end now ↔ FirstByHolding ops query ef reads given end now }
    ensures first_stands { (ops : Ops) (query : List Bool) (ef : ℕ) (reads : List (Look × Answer)) (given : List Given) (end : Bool)
        (now : Standing) (b : FirstByHolding ops query ef reads given end now) → StandsHolding now (after_batch ef b.held) }
    ensures next { (ef most : ℕ) (mode : Mode) (old : Standing) (h : Held) (reads : List (Look × Answer)) (given : List Given) (end : Bool)
        (now : Standing) → StandsHolding old h
        → NextBatch ef most mode old reads given end now ↔ NextByHolding ef most mode old h reads given end now }
    ensures next_stands { (ef most : ℕ) (mode : Mode) (old : Standing) (h : Held) (reads : List (Look × Answer)) (given : List Given)
        (end : Bool) (now : Standing) → StandsHolding old h
        → (b : NextByHolding ef most mode old h reads given end now) → StandsHolding now (after_batch ef b.held) }
    ensures same { (stands : Standing) (g h : Held) → HoldTheSame g h → StandsHolding stands h → StandsHolding stands g }
    ensures turn { (s : Start) (ef : ℕ) (most : Option ℕ) (g h : Held) (turns : List Turn) (t : Turn)
        → HoldTheSame g (after_turns s turns h)
        → AreTurnsOf s ef most h turns → IsTurnOf s ef most g t → AreTurnsOf s ef most h (turns ++ t ∷ []) }
    ensures turned { (s : Start) (g h : Held) (turns : List Turn) (t : Turn) → HoldTheSame g (after_turns s turns h)
        → HoldTheSame (after_turn s t g) (after_turns s (turns ++ t ∷ []) h) }
{}

/// A law, and no work. Worked batches: a scan of 0000 with ef 1, of 0011 at 1/1 and 0111 at 1/3. The first batch gives the row of 1/1
/// at 2. Then 0001 comes to 1/5. Where the scan goes on with each row that is found, the next batch gives it at 1; where it gives
/// none that is nearer than the last one given, that batch gives none, and yet is not the last. The one after looks at 1/3 again
/// and gives its row at 3, and the one after that is the last.
pub fn law_worked_batches()
    ensures first { FirstBatch Hamming zeros 1 first_reads (given_of first row_1 last_two ∷ []) false after_first }
    ensures second_relaxed { NextBatch 1 20000 Relaxed after_first second_reads (given_of third row_3 last_one ∷ []) false
        (after_second (hamming_of zeros last_one)) }
    ensures second_strict { NextBatch 1 20000 Strict after_first second_reads [] false (after_second (hamming_of zeros last_two)) }
    ensures third { (mode : Mode) (last : Dist) → GoesOn mode → is_less (hamming_of zeros last_three) (Some last) ≡ false
        → NextBatch 1 20000 mode (after_second last) (look_again second (told_as row_2 last_three) ∷ [])
        (given_of second row_2 last_three ∷ []) false after_third }
    ensures end { (mode : Mode) → GoesOn mode → NextBatch 1 20000 mode after_third [] [] true after_third }
{}

/// A law, and no work. A worked example: between two batches the place of an element that the first batch knew is used anew, with
/// version 2. The look asks for version 1 and is told that it is gone: the batch gives no row, and is not the last.
pub fn law_worked_reuse()
    ensures { (mode : Mode) → GoesOn mode → NextBatch 1 20000 mode before_reuse
        ((AtList second list_place 0 1 0, Gone) ∷ look_again second Gone ∷ []) [] false after_reuse }
{}

/// A law, and no work. A worked example: 0111 comes to 1/5 as the third row of an index with m 2 and ef 4, where 0000 at 1/1 and 0011
/// at 1/3 name each other. Its slots name 1/3 and then 1/1, which is nearer to 1/3 than to the newcomer and fills up. Then 1/3 and
/// 1/1 are looked at, each with its member, and each names the newcomer in its first empty slot.
pub fn law_worked_third_insert()
    ensures lists { InsertLists third_node third_reads (Some 0) third_lists }
    ensures links { LinksBack third_target third_lists.picks third_links }
{}
