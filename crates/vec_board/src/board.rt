//! A board: a core with all pages of its index, and its disks.

ghost use Rattle.std.specs.Prelude.{◌≡◌, ◌≤◌, length, vec_len};
ghost use Rattle.page_log.specs.Parts.{unsettled, ReachesTo};

use crate::board_core::Core;
use crate::changing::not_allowed;
use crate::loading::known_of;
use loaded_index::Loaded;
use page_bytes::Page;
use page_log::Log;
use page_sets::PageList;
use std::alloc::Global;
use vec_history::Act;
use vec_names::Params;
use vec_outside::Disks;
use vec_steps::{Ask, StepFault, Told};

/// An index that desks share: the core of its board, all its pages, and the disks on which its log stands.
#[derive(Drop)]
pub struct Board<D: Disks> {
    pub(crate) alloc: Global,
    pub(crate) disks: D,
    pub(crate) core: Core,
    pub(crate) pages: PageList,
    ghost reach: { D.told → ReachesTo (unsettled core.log) (length ((D.disk disks).seen (unsettled core.log).area)) },
}

impl<D: Disks> Board<D> {
    ghost use Rattle.std.specs.Prelude.{◌+◌, ◌%◌, ◌^◌, ◌↔◌, ℕ, List, ◌∷◌, [], OnOk, OnErr, IfOk, IfErr};
    ghost use Rattle.vec_names.specs.declared.params.Params.{Params};
    ghost use Rattle.vec_history.specs.declared.event.Event.TheVariants.{Settled};
    ghost use Rattle.vec_history.specs.Settling.{lasting_events};
    ghost use Rattle.page_log.specs.Going.{ComesFrom, SettlesAll};
    ghost use Rattle.page_log.specs.Parts.{IsAllOut, at_end};
    ghost use Rattle.vec_steps.specs.declared.fault.StepFault.TheVariants.{Memory};
    ghost use Rattle.vec_graph.specs.declared.graph.Graph.{Graph};
    ghost use Rattle.ivf_graph.specs.declared.graph.IvfGraph.{IvfGraph};
    ghost use Rattle.graph_pages.specs.Standing.{Stands};
    ghost use Rattle.ivf_pages.specs.Standing.{Stands as StandsForLists};
    ghost use Rattle.loaded_index.specs.Loading.{CanGoOn};
    ghost use Rattle.vec_steps.specs.Index.{Index, OfNodes, OfLists};
    ghost use Rattle.vec_steps.specs.Doing.{Cleaned, Ended};
    ghost use Rattle.vec_steps.specs.Telling.{step_of};
    ghost use Rattle.vec_steps.specs.Granting.{AgreesAtTake};
    ghost use Rattle.vec_steps.specs.Desks.{Asks, WantsMemory};
    ghost use Rattle.vec_steps.specs.Calls.{Stepped, Failed, made_by};
    ghost use Rattle.vec_board.specs.Standing.{StandsOn, acts_of};
    ghost use Rattle.vec_board.specs.Acting.{IsAsBefore, room_of};
    ghost use Rattle.vec_board.specs.Looking.{desk_of};
    ghost use Rattle.vec_board.specs.Serving.{IsBusy, MakesFor, spare_of};
    ghost use Rattle.vec_board.specs.Settling.{IsNoted, IsUnsettled};
    ghost use Rattle.vec_board.specs.Boards.{StandsWhole, HoldsAlone, AreAllMade};

    /// The board of a core with all pages of its index, over the disks on which its log stands. It takes no memory.
    pub fn from_core(alloc: Global, core: Core, pages: Vec<Page>, disks: D) -> Board<D>
        requires { D.told → ReachesTo (unsettled core.log) (length ((D.disk disks).seen (unsettled core.log).area)) }
        ensures disks { result.disks ≡ disks }
        ensures core { result.core ≡ core }
        ensures pages { result.pages.pages ≡ pages }
    {
        Board {
            alloc,
            disks,
            core,
            pages: PageList { pages },
        }
    }

    /// The board of an index that was read or made: it stands on the graph of the pages, or on their lists, whichever they stand for.
    /// There is no act yet, no gate is held, and no phase stands. What is used of the log's room is counted from what was used then,
    /// and the next lasting event has the number behind those that came before. It takes no memory.
    pub fn from_loaded(alloc: Global, disks: D, loaded: Loaded) -> Board<D>
        requires goes { CanGoOn loaded }
        requires reach { D.told → loaded.end ≤ length ((D.disk disks).seen loaded.area) }
        ensures nodes { (g : Graph) → Stands loaded.pages.items g
            → StandsWhole result.core result.pages.pages.items (D.count result.disks) (OfNodes g) }
        ensures lists { (p : Params) (g : IvfGraph) → StandsForLists p loaded.pages.items g
            → StandsWhole result.core result.pages.pages.items (D.count result.disks) (OfLists g) }
        ensures acts { acts_of result.core ≡ [] }
        ensures alone { HoldsAlone (acts_of result.core) 0 }
        ensures number { result.core.number ≡ (loaded.before + 1) % 2 ^ 64 }
        ensures room { room_of result.core ≡ record { used = loaded.used; since = 0 } }
        ensures epoch { result.core.log.epoch ≡ loaded.epoch }
        ensures log { unsettled result.core.log ≡ at_end loaded.area loaded.end loaded.used }
        ensures disks { result.disks ≡ disks }
        ensures pages { result.pages.pages ≡ loaded.pages }
    {
        let Loaded {
            pages,
            epoch,
            area,
            before,
            end,
            used,
            unwritten: _,
        } = loaded;
        let (params, summary) = known_of(&pages);
        let log = Log::over(alloc, epoch, area, end, used);
        let core = Core::over(alloc, params, summary, log, before.wrapping_add(1));
        Board::from_core(alloc, core, pages, disks)
    }

    /// The acts since the index was opened, the first one first.
    pub fn acts(&self) -> &[Act]
        ensures { result.now ≡ acts_of self.now.core }
    {
        self.core.acts()
    }

    /// The parameters of the index.
    pub fn params(&self) -> Params
        ensures { result ≡ self.now.core.params }
    {
        self.core.params
    }

    /// The number of the epoch.
    pub fn epoch(&self) -> u64
        ensures { result ≡ self.now.core.log.epoch }
    {
        self.core.log.epoch()
    }

    /// The core, all pages and the disks. It takes no memory.
    pub fn into_core(self) -> (Core, Vec<Page>, D)
        ensures core { result.0 ≡ self.core }
        ensures pages { result.1 ≡ self.pages.pages }
        ensures disks { result.2 ≡ self.disks }
    {
        let Board {
            alloc: _,
            disks,
            core,
            pages,
        } = self;
        let PageList { pages } = pages;
        (core, pages, disks)
    }

    /// The disks and the acts. What was not settled is lost. It takes no memory.
    pub fn into_parts(self) -> (D, Vec<Act>)
        ensures disks { result.0 ≡ self.disks }
        ensures acts { result.1.items ≡ acts_of self.core }
    {
        let (core, _, disks) = self.into_core();
        (disks, core.into_acts())
    }

    /// Does what a desk asks, and tells what became of it, by the words of `vec_steps`; `Busy` exactly where a gate is asked for that
    /// another desk holds, and one of the two holds is Alone. The desk made just the act that the step tells, and the pages are what
    /// it makes of them, with its number. After a refusal, and after every word by which nothing was done, all is as before, and the
    /// ask too. It is refused for want of memory only where the ask may want it, and by `LogFull` exactly where the event has no room
    /// beside what is used; it calls no disk.
    pub fn serve(&mut self, desk: u32, ask: &mut Ask, told: &mut Told) -> Result<(), StepFault>
        requires { length told.old.bits ≡ self.old.core.params.bits }
        ensures ok { OnOk result ((IsBusy ask.old told.new → ⊥) → Stepped (Asks (StandsWhole self.old.core self.old.pages.pages.items
            (D.count self.old.disks)) (desk_of self.old.core desk) (acts_of self.old.core) ask.old) (desk_of self.old.core desk)
            (acts_of self.old.core) (acts_of self.new.core) ask.old ask.new told.new) }
        ensures made { OnOk result ((IsBusy ask.old told.new → ⊥) → (ending : Cleaned)
            × MakesFor self.old.core self.new.core desk ask.old (made_by self.old.core.params (step_of ask.old told.new ending))) }
        ensures stands { (base : Index) → Asks (StandsWhole self.old.core self.old.pages.pages.items (D.count self.old.disks))
            (desk_of self.old.core desk) (acts_of self.old.core) ask.old base
            → StandsWhole self.new.core self.new.pages.pages.items (D.count self.new.disks) base }
        ensures busy { (base : Index) → StandsWhole self.old.core self.old.pages.pages.items (D.count self.old.disks) base
            → OnOk result (IsBusy ask.old told.new ↔ (AgreesAtTake (acts_of self.old.core) desk ask.old → ⊥)) }
        ensures still { OnOk result (IsBusy ask.old told.new → IsAsBefore self.old.core self.new.core × (ask.new ≡ ask.old)) }
        ensures same { OnErr result (ask.new ≡ ask.old) }
        ensures kept { OnErr result (IsAsBefore self.old.core self.new.core) }
        ensures err { IfErr result (Failed (Asks (StandsWhole self.old.core self.old.pages.pages.items (D.count self.old.disks))
            (desk_of self.old.core desk) (acts_of self.old.core) ask.old) (desk_of self.old.core desk)
            (acts_of self.old.core) (acts_of self.new.core) ask.old) }
        ensures wants { IfErr result (λ fault. fault ≡ Memory → WantsMemory (spare_of self.old.core desk) ask.old) }
        ensures pages { (base : Index) → Asks (StandsWhole self.old.core self.old.pages.pages.items (D.count self.old.disks))
            (desk_of self.old.core desk) (acts_of self.old.core) ask.old base
            → OnOk result (AreAllMade (made_by self.old.core.params (step_of ask.old told.new Ended)) self.old.pages.pages.items
            self.new.pages.pages.items self.old.core.params self.old.core.number) }
        ensures kept_pages { (base : Index) → Asks (StandsWhole self.old.core self.old.pages.pages.items (D.count self.old.disks))
            (desk_of self.old.core desk) (acts_of self.old.core) ask.old base
            → OnErr result (self.new.pages.pages.items ≡ self.old.pages.pages.items) }
        ensures desk { (number : ℕ) → desk_of self.new.core number ≡ desk_of self.old.core number }
        ensures disks { self.new.disks ≡ self.old.disks }
        ensures bits { length told.new.bits ≡ length told.old.bits }
    {
        if count_of(&self.pages) != u64::from(self.core.summary.blocks) {
            return Err(not_allowed());
        }
        let served = self
            .core
            .serve(self.alloc, desk, ask, told, &mut self.pages);
        tell_count(&self.pages);
        served
    }

    /// Brings all lasting events to the disks, and tells how many the acts have; the desk notes that they are settled. With nothing
    /// to be written no call of the disks is made. `Disk` comes only where the disks' count of faults rose, and tells it; the desk
    /// notes that, what was settled stays settled, and a later call goes on from there. The pages stay.
    pub fn settle(&mut self, desk: u32) -> Result<u64, StepFault>
        ensures ok { IfOk result (λ upto. (upto ≡ lasting_events (acts_of self.old.core))
            × IsNoted self.old.core self.new.core desk (Settled upto)) }
        ensures err { IfErr result (IsUnsettled self.old.core self.new.core desk (D.count self.old.disks) (D.count self.new.disks)) }
        ensures from { ComesFrom (unsettled self.old.core.log) (D.disk self.old.disks) (unsettled self.new.core.log)
            (D.disk self.new.disks) [] }
        ensures all { OnOk result (SettlesAll (unsettled self.old.core.log) (D.disk self.old.disks) (unsettled self.new.core.log)
            (D.disk self.new.disks)) }
        ensures none { OnOk result (IsAllOut (unsettled self.new.core.log)) }
        ensures nothing { IsAllOut (unsettled self.old.core.log) → self.new.disks ≡ self.old.disks }
        ensures stands { (base : Index) → StandsWhole self.old.core self.old.pages.pages.items (D.count self.old.disks) base
            → StandsWhole self.new.core self.new.pages.pages.items (D.count self.new.disks) base }
        ensures desk { (number : ℕ) → desk_of self.new.core number ≡ desk_of self.old.core number }
        ensures pages { self.new.pages ≡ self.old.pages }
    {
        self.core.settle(desk, &mut self.disks)
    }
}

// How many pages there are.
fn count_of(pages: &PageList) -> u64
    ensures told { result ≡ vec_len pages.now.pages }
    ensures listed { result ≡ length pages.now.pages.items }
{
    pages.pages.as_slice().len() as u64
}

// A vector that is read tells that it is as long as its list.
fn tell_count(pages: &PageList)
    ensures { vec_len pages.now.pages ≡ length pages.now.pages.items }
{
    let _ = count_of(pages);
}
