//! Settling: the events go to the disks.

ghost use Rattle.std.specs.Prelude.{◌≡◌, ◌≤◌, [], length, OnOk, IfOk, OnErr, IfErr};
ghost use Rattle.vec_history.specs.declared.event.Event.TheVariants.{Settled};
ghost use Rattle.vec_history.specs.Settling.{lasting_events};
ghost use Rattle.page_log.specs.Going.{ComesFrom, SettlesAll};
ghost use Rattle.page_log.specs.LogCauses.{IsDiskFault};
ghost use Rattle.page_log.specs.Parts.{unsettled, ReachesTo, IsAllOut};
ghost use Rattle.vec_board.specs.Standing.{acts_of};
ghost use Rattle.vec_board.specs.Ready.{IsReady};
ghost use Rattle.vec_board.specs.Settling.{IsStill, IsNoted, IsOfSettling, IsUnsettled};

use crate::board_core::Core;
use page_log::LogFault;
use vec_history::Event;
use vec_outside::Disks;
use vec_steps::StepFault;

impl Core {
    // The events alone.
    fn flush<D: Disks>(&mut self, disks: &mut D) -> Result<(), LogFault>
        requires { D.told → ReachesTo (unsettled self.old.log) (length ((D.disk disks.old).seen (unsettled self.old.log).area)) }
        ensures still { IsStill self.old self.new }
        ensures history { self.new.history ≡ self.old.history }
        ensures from { ComesFrom (unsettled self.old.log) (D.disk disks.old) (unsettled self.new.log) (D.disk disks.new) [] }
        ensures all { OnOk result (SettlesAll (unsettled self.old.log) (D.disk disks.old) (unsettled self.new.log) (D.disk disks.new)) }
        ensures none { OnOk result (IsAllOut (unsettled self.new.log)) }
        ensures reach { D.told → ReachesTo (unsettled self.new.log) (length ((D.disk disks.new).seen (unsettled self.new.log).area)) }
        ensures nothing { IsAllOut (unsettled self.old.log) → disks.new ≡ disks.old }
        ensures later { D.count disks.old ≤ D.count disks.new }
        ensures fault { IfErr result (IsDiskFault (D.count disks.old) (D.count disks.new)) }
    {
        self.log.flush(disks)
    }

    /// Brings all lasting events to the disks, and tells how many the acts have; the desk notes that they are settled. With nothing
    /// to be written no call of the disks is made.
    ///
    /// `Disk` comes only where the disks' count of faults rose, and tells it; the desk notes that. What was settled stays settled,
    /// and a later call goes on from there. At want of memory nothing is noted; then some events may be settled all the same.
    pub fn settle<D: Disks>(&mut self, desk: u32, disks: &mut D) -> Result<u64, StepFault>
        requires { D.told → ReachesTo (unsettled self.old.log) (length ((D.disk disks.old).seen (unsettled self.old.log).area)) }
        ensures ok { IfOk result (λ upto. (upto ≡ lasting_events (acts_of self.old)) × IsNoted self.old self.new desk (Settled upto)) }
        ensures err { IfErr result (IsUnsettled self.old self.new desk (D.count disks.old) (D.count disks.new)) }
        ensures from { ComesFrom (unsettled self.old.log) (D.disk disks.old) (unsettled self.new.log) (D.disk disks.new) [] }
        ensures all { OnOk result (SettlesAll (unsettled self.old.log) (D.disk disks.old) (unsettled self.new.log) (D.disk disks.new)) }
        ensures none { OnOk result (IsAllOut (unsettled self.new.log)) }
        ensures reach { D.told → ReachesTo (unsettled self.new.log) (length ((D.disk disks.new).seen (unsettled self.new.log).area)) }
        ensures nothing { IsAllOut (unsettled self.old.log) → disks.new ≡ disks.old }
        ensures later { D.count disks.old ≤ D.count disks.new }
    {
        match self.make_room(desk, &Event::Settled { upto: 0 }) {
            Ok(()) => self.settle_ready(desk, disks),
            Err(_) => Err(StepFault::Memory),
        }
    }

    // The same, where there is room for an act.
    fn settle_ready<D: Disks>(&mut self, desk: u32, disks: &mut D) -> Result<u64, StepFault>
        requires reach { D.told → ReachesTo (unsettled self.old.log) (length ((D.disk disks.old).seen (unsettled self.old.log).area)) }
        requires ready { IsReady self.old.history desk (Settled 0) }
        ensures ok { IfOk result (λ upto. (upto ≡ lasting_events (acts_of self.old)) × IsNoted self.old self.new desk (Settled upto)) }
        ensures err { IfErr result (IsUnsettled self.old self.new desk (D.count disks.old) (D.count disks.new)) }
        ensures from { ComesFrom (unsettled self.old.log) (D.disk disks.old) (unsettled self.new.log) (D.disk disks.new) [] }
        ensures all { OnOk result (SettlesAll (unsettled self.old.log) (D.disk disks.old) (unsettled self.new.log) (D.disk disks.new)) }
        ensures none { OnOk result (IsAllOut (unsettled self.new.log)) }
        ensures reach { D.told → ReachesTo (unsettled self.new.log) (length ((D.disk disks.new).seen (unsettled self.new.log).area)) }
        ensures nothing { IsAllOut (unsettled self.old.log) → disks.new ≡ disks.old }
        ensures later { D.count disks.old ≤ D.count disks.new }
    {
        let before = disks.faults();
        match self.flush(disks) {
            Ok(()) => {
                let upto = self.history.lasting();
                self.note(desk, Event::Settled { upto });
                Ok(upto)
            }
            Err(LogFault::Disk { count }) => Err(self.note_fault(desk, before, count)),
            Err(_) => Err(StepFault::Memory),
        }
    }

    // The desk notes a fault of the disks, unless their count stands at its type's end, where no claim is made of it.
    fn note_fault(&mut self, desk: u32, before: u64, count: u64) -> StepFault
        requires { IsReady self.old.history desk (Settled 0) }
        ensures noted { IsUnsettled self.old self.new desk before count result }
        ensures log { unsettled self.new.log ≡ unsettled self.old.log }
    {
        if count <= before {
            return StepFault::Memory;
        }
        self.note(desk, Event::DiskFaulted { count });
        StepFault::Disk { count }
    }

    // The desk notes what became of settling, for which there is room.
    fn note(&mut self, desk: u32, event: Event)
        requires ready { IsReady self.old.history desk (Settled 0) }
        requires is { IsOfSettling event }
        ensures noted { IsNoted self.old self.new desk event }
        ensures log { unsettled self.new.log ≡ unsettled self.old.log }
    {
        self.record(desk, event, 0);
    }
}
