//! What lasts of a log that goes on.

ghost use Rattle.std.specs.Prelude.{◌≡◌, ◌+◌, ◌<◌, ◌≤◌, ◌++◌, ◌∷◌, [], ℕ, List, None, length, take, map};
ghost use Rattle.vec_event.specs.Spelling.{spelling, IsTyped, IsWritable};
ghost use Rattle.vec_history.specs.declared.event.Event.{Event};
ghost use Rattle.vec_outside.specs.Disk.{Image, IsImage, IsDurable};
ghost use Rattle.vec_outside.specs.declared.disks.Area.{Area};
ghost use Rattle.page_log.specs.Batches.{Placed, IsLog};
ghost use Rattle.page_log.specs.Going.{Unsettled, IsGoing, IsBetween, Holds, ComesFrom};
ghost use Rattle.page_log.specs.Parts.{with_event, taken, at_end, past, newer_of, unsettled, IsOut, IsSameBatch};
ghost use Rattle.page_log.specs.declared.log.Log.{Log};
ghost use Rattle.page_log.specs.declared.pending.Pending.{Pending};
ghost use Rattle.index_sizes.specs.declared.limits.TheConstants.{LOG_ROOM};

use vec_outside::Disks;

/// A law, and no work. Where a batch is out of a log, what is left once it is settled is the log. Of a log that goes on with its
/// disks, every image holds what is settled and of what is pending the first so many events; with nothing pending it holds just
/// what is settled. The log goes on where an event is added that has room, which is then the last that is pending, and where a
/// batch is taken out. A log that was read from durable bytes, to its end at a closed seal, goes on with the events that were read
/// settled and nothing pending.
pub fn law_going<D: Disks>()
    ensures images { (disks : D) (base : List ℕ) (log : Unsettled) (settled pending : List Event)
        → IsGoing base log (D.disk disks) settled pending → (image : Image) → IsImage (D.disk disks) image
        → IsBetween base settled pending (image log.area) }
    ensures settled { (disks : D) (base : List ℕ) (log : Unsettled) (settled : List Event)
        → IsGoing base log (D.disk disks) settled [] → (image : Image) → IsImage (D.disk disks) image
        → Holds base settled (image log.area) }
    ensures event { (disks : D) (base : List ℕ) (log : Unsettled) (event : Event) (settled pending : List Event)
        → IsTyped event → IsWritable event → log.newer.used + (length (spelling event) + 5) ≤ LOG_ROOM
        → IsGoing base log (D.disk disks) settled pending
        → IsGoing base (with_event log event) (D.disk disks) settled (pending ++ event ∷ []) }
    ensures batch { (disks : D) (base : List ℕ) (log : Unsettled) (settled pending : List Event)
        → IsGoing base log (D.disk disks) settled pending → IsGoing base (taken log) (D.disk disks) settled pending }
    ensures past { (log : Log) (pending after : Pending) → IsOut log pending → IsSameBatch pending after
        → past after (newer_of log) ≡ unsettled log }
    ensures opened { (disks : D) (base : List ℕ) (area : Area) (placed : List Placed) (end used : ℕ) → IsDurable area (D.disk disks)
        → take (length base) ((D.disk disks).seen area) ≡ base
        → IsLog ((D.disk disks).seen area) (length base) placed end used None
        → end < length ((D.disk disks).seen area) → used ≤ LOG_ROOM
        → IsGoing base (at_end area end used) (D.disk disks) (map (λ placed. placed.1) placed) [] }
{}

/// A law, and no work. What holds of a log and its disks between two moments, and between the second and a third, holds between
/// the first and the third. It holds where nothing is done, and where an event is added that has room.
pub fn law_coming<D: Disks>()
    ensures same { (disks : D) (log : Unsettled) → ComesFrom log (D.disk disks) log (D.disk disks) [] }
    ensures event { (disks : D) (log : Unsettled) (event : Event) → IsTyped event → IsWritable event
        → log.newer.used + (length (spelling event) + 5) ≤ LOG_ROOM
        → ComesFrom log (D.disk disks) (with_event log event) (D.disk disks) (event ∷ []) }
    ensures joined { (first second third : D) (old mid new : Unsettled) (added more : List Event)
        → ComesFrom old (D.disk first) mid (D.disk second) added → ComesFrom mid (D.disk second) new (D.disk third) more
        → ComesFrom old (D.disk first) new (D.disk third) (added ++ more) }
{}
