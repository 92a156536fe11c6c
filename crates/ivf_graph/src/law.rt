//! What the definitions of the index of lists and of its histories mean: laws. A function here does no work.

ghost use Rattle.std.specs.Prelude.{◌≤◌, ◌≢◌, ◌-◌, slice_get, take, drop, Some, None, replicate, ◌≡◌, ◌⊎◌, ℕ, ◌∷◌, [], Bool, true, false, List, map};
ghost use Rattle.std.specs.Prelude.{min, length, IsSorted, IsPermutation};
ghost use Rattle.vec_history.specs.declared.event.Event.{Event as Events};
ghost use Rattle.vec_history.specs.declared.event.Event.TheVariants.{IvfGrow};
ghost use Rattle.std.specs.List.{enumerate_from};
ghost use Rattle.ivf_graph.specs.Answer.{ivf_answer, found, found_by, found_on, probed, hit_of, hit_of_row};
ghost use Rattle.bit_dist.specs.Hits.{Hit, hit_cmp};
ghost use Rattle.ivf_graph.specs.Examples.{four, row_1, row_2, row_3, row_4, row_5, unequal_by, worked_acts, worked_centres, worked_index};
ghost use Rattle.ivf_graph.specs.Examples.{growing_acts, grown_index, is_row_3, vacuum_acts};
ghost use Rattle.ivf_graph.specs.Graph.{Row, rows, centres, row_need, AreBlocksApart, AreBlocksOwn};
ghost use Rattle.ivf_graph.specs.Looks.{centre_of, centre_pages, seen_from, told_of};
ghost use Rattle.ivf_graph.specs.Looks.Look.{AtCentres, AtRows};
ghost use Rattle.ivf_graph.specs.Looks.Answer.{OfCentres, OfRows};
ghost use Rattle.ivf_graph.specs.Reads.{centres_read, IsAnswerAt, IsAnswerFrom};
ghost use Rattle.ivf_graph.specs.Effect.{effect, after, state_after, AreRowsChanged};
ghost use Rattle.vec_history.specs.declared.event.Act.{Act as Acts};
ghost use Rattle.vec_names.specs.declared.heap_id.HeapId.{HeapId as HeapIds};
ghost use Rattle.ivf_graph.specs.declared.graph.IvfGraph.{IvfGraph as Graphs};
ghost use Rattle.ivf_graph.specs.Courses.{Turn, events_of, aims_at, IsPlacing, IsInsertFrom, IsInsertedAt, IsVacuumedAt};
ghost use Rattle.ivf_graph.specs.declared.list.IvfList.{IvfList as IvfLists};
ghost use Rattle.ivf_graph.specs.Lasting.{HasGrown, StandsAt, place_later};
ghost use Rattle.ivf_graph.specs.Once.{IsProbed, StandsIn, IsFoundOnce};
ghost use Rattle.vec_history.specs.Acts.{IsRising};
ghost use Rattle.ivf_graph.specs.Asking.{IsAsked, IsGranted, IsOfAll};
ghost use Rattle.ivf_graph.specs.Rules.{IsEventAllowed};
ghost use Rattle.ivf_graph.specs.Legal.{IsLegal};

use crate::graph::IvfGraph;
use index_sizes::{MOST_BITS, MOST_BLOCKS};
use vec_history::Act;

/// An event that adds no row, grows no chain and drops no rows leaves the rows of the
/// lists as they are; and no event changes a centre or the number of lists.
pub fn law_rows(index: &IvfGraph)
    ensures same_rows { (e : Events) → AreRowsChanged e ⊎ (rows (effect e index.now) ≡ rows index.now) }
    ensures same_centres { (e : Events) → centres (effect e index.now) ≡ centres index.now }
{}

/// Each block of a chain stays one of the index's, and stands once in the chains: where
/// it is so at the base, it is so after a legal history.
pub fn law_blocks(base: &IvfGraph, acts: &[Act])
    requires legal { IsLegal base.now acts.now }
    requires own { AreBlocksOwn base.now }
    ensures { AreBlocksOwn (after base.now acts.now) }
{}

/// A list keeps its centre, and its blocks in their order: at a later position it may have more behind them.
pub fn law_chains(base: &IvfGraph, acts: &[Act])
    ensures { (n m list : ℕ) (was : IvfLists) → n ≤ m → slice_get (state_after base.now acts.now n).lists list ≡ Some was
        → HasGrown was (state_after base.now acts.now m) list }
{}

/// A row that is not cut between two positions stands on its block at the later one, at the place that the acts between
/// leave it: no place is lost but by a cut, and rows move up by cuts alone.
pub fn law_stands(base: &IvfGraph, acts: &[Act])
    requires legal { IsLegal base.now acts.now }
    requires own { AreBlocksOwn base.now }
    ensures { (n m block place later : ℕ) (row : Row) → n ≤ m → StandsAt (state_after base.now acts.now n) block place row
        → place_later (take (m - n) (drop n acts.now)) block place ≡ Some later
        → StandsAt (state_after base.now acts.now m) block later row }
{}

/// The answer rises by distance and then by the rows' names; it has each row of the
/// lists that are probed, as often as it stands there, and no other. As many lists are probed as asked, or all
/// where there are fewer, and then the answer has all rows.
pub fn law_answer(index: &IvfGraph)
    ensures rises { (query : List Bool) (probes : ℕ) → IsSorted hit_cmp (ivf_answer index.now query probes) }
    ensures all { (query : List Bool) (probes : ℕ)
        → IsPermutation (map hit_of (found index.now query probes)) (ivf_answer index.now query probes) }
    ensures few { (query : List Bool) (probes : ℕ) → length (probed index.now query probes) ≡ min probes (length index.now.lists) }
    ensures whole { (query : List Bool) (probes : ℕ) → length index.now.lists ≤ probes
        → IsPermutation (map (hit_of_row query) (rows index.now)) (ivf_answer index.now query probes) }
{}

/// The pages of the centres, each read once, tell of each list once, by its number. The rows that a look at a block
/// tells are those that a search finds there.
pub fn law_looks(index: &IvfGraph)
    ensures centres { (places : ℕ) → places ≤ MOST_BITS
        → centres_read places 1 (replicate (centre_pages places (length index.now.lists)) index.now)
        ≡ map centre_of (enumerate_from 0 index.now.lists) }
    ensures rows { (query : List Bool) (block : ℕ) (rows : List Row)
        → found_on query (block, rows) ≡ map (found_by query block) (seen_from 1 rows) }
{}

/// A search whose reads are all of this one state, in which each block stands once in
/// the chains, answers as the state does; and there is such a search.
pub fn law_reads(index: &IvfGraph)
    requires { AreBlocksApart index.now }
    ensures one { (reads probes : ℕ) (query : List Bool) (answer : List Hit) → length query ≤ MOST_BITS
        → IsAnswerFrom (replicate reads index.now) (length index.now.lists) query probes answer
        → answer ≡ ivf_answer index.now query probes }
    ensures some { (probes : ℕ) (query : List Bool) → length query ≤ MOST_BITS
        → (reads : ℕ) × IsAnswerFrom (replicate reads index.now) (length index.now.lists) query probes (ivf_answer index.now query probes) }
{}

/// A search whose reads all have one position answers as the state there does; and at each position there is such a search.
pub fn law_still(base: &IvfGraph, acts: &[Act])
    requires legal { IsLegal base.now acts.now }
    requires own { AreBlocksOwn base.now }
    ensures one { (n reads probes : ℕ) (query : List Bool) (answer : List Hit) → length query ≤ MOST_BITS
        → IsAnswerAt base.now acts.now (replicate reads n) query probes answer
        → answer ≡ ivf_answer (state_after base.now acts.now n) query probes }
    ensures some { (n probes : ℕ) (query : List Bool) → n ≤ length acts.now → length query ≤ MOST_BITS
        → (reads : ℕ) × IsAnswerAt base.now acts.now (replicate reads n) query probes
        (ivf_answer (state_after base.now acts.now n) query probes) }
{}

/// A search whose reads have positions of their own finds a row once that stands in a list that it probes from before its
/// first read to after its last: the row is among those found, as it stood when its block was read, and no other row found
/// is of that block and offset. The answer is the rows found, in order.
pub fn law_answered_once(base: &IvfGraph, acts: &[Act])
    requires legal { IsLegal base.now acts.now }
    requires own { AreBlocksOwn base.now }
    ensures { (low high list block place probes : ℕ) (row : Row) (positions : List ℕ) (query : List Bool) (answer : List Hit)
        → length query ≤ MOST_BITS → IsRising low positions high
        → (a : IsAnswerAt base.now acts.now positions query probes answer)
        → IsProbed (state_after base.now acts.now low) query probes list
        → StandsIn base.now acts.now low high list block place row
        → IsFoundOnce base.now acts.now low high query block place row a.answers.found }
{}

/// What the rules ask of a desk's next event, other than what a step answers by a word, holds on while other desks act,
/// up to the desk's own next act: a block stays in its chain, and what a cut names stays while the desk holds Vacuum Alone.
/// Of the index where it was so it is asked that its blocks are its own.
pub fn law_later(base: &IvfGraph, acts: &[Act])
    requires { IsLegal base.now acts.now }
    ensures { (n desk : ℕ) (e : Events) → AreBlocksOwn (state_after base.now acts.now n)
        → ((k : ℕ) (a : Acts) → n ≤ k → slice_get acts.now k ≡ Some a → a.desk ≢ desk)
        → IsAsked base.now (take n acts.now) desk e → IsAsked base.now acts.now desk e }
{}

/// An event that the rules allow meets what they ask so; and one that meets it and is granted what a step's words say is
/// allowed, where each block stands once in the chains. Settling and faults are not spoken of.
pub fn law_asked(base: &IvfGraph, acts: &[Act])
    ensures asked { (desk : ℕ) (e : Events) → (IsOfAll e → ⊥) → IsEventAllowed (after base.now acts.now) acts.now desk e
        → IsAsked base.now acts.now desk e }
    ensures allowed { (desk : ℕ) (e : Events) → AreBlocksApart (after base.now acts.now)
        → IsAsked base.now acts.now desk e → IsGranted base.now acts.now desk e
        → IsEventAllowed (after base.now acts.now) acts.now desk e }
{}

/// An insert makes one event that puts its row, with its id and its bits, on the block that it answers: an IvfAdd, or an
/// IvfGrow of the list that it answers. Then it makes at most one more, by which that list comes to aim at that block.
pub fn law_insert()
    ensures { (states : List Graphs) (lists : ℕ) (id : HeapIds) (bits : List Bool) (turns : List Turn) (list block : ℕ)
        → (i : IsInsertFrom states lists id bits turns list block)
        → (e : Events) × (events_of turns ≡ e ∷ aims_at i.nearest.aim list block) × IsPlacing list block id bits e }
{}

/// Worked examples of the definitions.
pub fn law_examples()
    // Of the centres 0000, 1110 and 0001 the last two are as near to 0111, and the lower number goes first.
    ensures one_probe { ivf_answer worked_index (four false true true true) 1 ≡ (unequal_by 1, row_3) ∷ (unequal_by 2, row_4) ∷ [] }
    ensures three_probes { ivf_answer worked_index (four false true true true) 3
        ≡ (unequal_by 1, row_3) ∷ (unequal_by 2, row_2) ∷ (unequal_by 2, row_4) ∷ (unequal_by 3, row_1) ∷ [] }

    // The centres are read before the further row comes, and their block before it or after it.
    ensures before_it { IsAnswerAt worked_index worked_acts (0 ∷ 0 ∷ []) (four false true true true) 1
        ((unequal_by 1, row_3) ∷ (unequal_by 2, row_4) ∷ []) }
    ensures behind_it { IsAnswerAt worked_index worked_acts (0 ∷ 1 ∷ []) (four false true true true) 1
        ((unequal_by 1, row_3) ∷ (unequal_by 1, row_5) ∷ (unequal_by 2, row_4) ∷ []) }
    // No read is answered by a state before that of the read before it, nor by one that is still to come.
    ensures falling { (query : List Bool) (probes : ℕ) (answer : List Hit)
        → IsAnswerAt worked_index worked_acts (1 ∷ 0 ∷ []) query probes answer → ⊥ }
    ensures to_come { (query : List Bool) (probes : ℕ) (answer : List Hit)
        → IsAnswerAt worked_index worked_acts (0 ∷ 2 ∷ []) query probes answer → ⊥ }
    ensures pages { (centre_pages 4 3 ≡ 1) × (centre_pages MOST_BITS MOST_BLOCKS ≡ MOST_BLOCKS) }

    // Block 1 has the centres, and the blocks behind it have rows.
    ensures look_at_centres { told_of 4 worked_index (AtCentres 1) ≡ Some (OfCentres worked_centres) }
    ensures look_at_rows { told_of 4 worked_index (AtRows 3)
        ≡ Some (OfRows (seen_from 1 ((row_3, four true true true true) ∷ (row_4, four true true true false) ∷ [])) None) }
    ensures look_at_others { (told_of 4 worked_index (AtCentres 2) ≡ None) × (told_of 4 worked_index (AtCentres 0) ≡ None)
        × (told_of 4 worked_index (AtRows 1) ≡ None) }
    // List 1 grows by block 5, and aims at it: the next look at the centres tells the aim, and one at block 3 what is behind it.
    ensures look_behind { (told_of 4 grown_index (AtRows 3)
        ≡ Some (OfRows (seen_from 1 ((row_3, four true true true true) ∷ (row_4, four true true true false) ∷ [])) (Some 5)))
        × (told_of 4 grown_index (AtRows 5) ≡ Some (OfRows (seen_from 1 ((row_5, four false true true false) ∷ [])) None)) }
    ensures look_at_aim { map (λ c. c.aim) (centres_read 4 1 (grown_index ∷ [])) ≡ 2 ∷ 5 ∷ 4 ∷ [] }

    // A desk that read block 3 to end list 1 is still asked no more than that when another has grown the list; but block 5 ends it now.
    ensures grown_by_another { IsAsked worked_index growing_acts 2 (IvfGrow 1 3 6 row_4 (four true true true false))
        × (IsGranted worked_index growing_acts 2 (IvfGrow 1 3 6 row_4 (four true true true false)) → ⊥) }

    // The row 1/5 0110 is nearest to list 1, and its aim has room. A vacuum of 1/3 reads all blocks and cuts one.
    ensures insert { IsInsertedAt worked_index worked_acts 1 (0 ∷ []) (0 ∷ []) row_5 (four false true true false) 1 3 }
    ensures vacuum { IsVacuumedAt worked_index vacuum_acts 1 4 is_row_3 0 3 (1 ∷ []) (1 ∷ 1 ∷ 1 ∷ 2 ∷ 3 ∷ []) }

    // It takes the row 1/3 away, and 1/4 behind it moves up.
    ensures moves_up { (place_later vacuum_acts 3 0 ≡ None) × (place_later vacuum_acts 3 1 ≡ Some 0)
        × (place_later vacuum_acts 2 0 ≡ Some 0) }

    // A row of 64,000 places takes 8,020 of a page's 8,160 bytes, so one page has one of them.
    ensures long_row { row_need MOST_BITS ≡ 8020 }
    ensures short_row { row_need 4 ≡ 28 }
{}
