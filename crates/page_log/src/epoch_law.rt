//! What lasts of both log areas over settles and new epochs.

ghost use Rattle.std.specs.Prelude.{◌≡◌, ◌⊎◌, ◌<◌, ◌≤◌, ◌++◌, ◌∷◌, [], ℕ, List, length, Option, Some, None, Ok, Result};
ghost use Rattle.vec_history.specs.declared.event.Event.{Event};
ghost use Rattle.page_bytes.specs.Content.{Content};
ghost use Rattle.page_log.specs.declared.limits.TheConstants.{HEAD, OPEN};
ghost use Rattle.index_sizes.specs.declared.limits.TheConstants.{LOG_ROOM};
ghost use Rattle.vec_outside.specs.Disk.{Image, IsDurable, IsImage};
ghost use Rattle.vec_outside.specs.declared.disks.Area.TheVariants.{Pages, Log0, Log1};
ghost use Rattle.page_log.specs.Aside.{AreAll, IsAside, IsUnderShut, IsUnderSome};
ghost use Rattle.page_log.specs.BothLogs.{Change, Held, HasImages, IsEpochOf, Logs, Ready, IsNext, IsStanding, LogsComeFrom, LogsGoOn, Reads};
ghost use Rattle.page_log.specs.BothLogs.{ReadsAny, added, alone, before_next, begun, begun_log, held_of, other_log, with_all_settled};
ghost use Rattle.page_log.specs.Going.{ComesFrom, KeepsOthers, SettlesAll, Unsettled};
ghost use Rattle.page_log.specs.NewEpochs.{NewEpoch, IsNewEpoch, IsUnder, base_of};
ghost use Rattle.page_log.specs.Parts.{at_end};
ghost use Rattle.page_log.specs.Opening.{Epoch, ReadsAs, Spot, area_of, parity_of};

use vec_outside::Disks;

/// A law, and no work. What holds of both log areas between two moments, and between the second and a third, holds between the
/// first and the third. It holds where nothing is done, where a log goes on beside an area that does not count, and where pages
/// alone are written. Once such a log has settled all, the logs stand with nothing pending.
pub fn law_logs<D: Disks>()
    ensures same { (disks : D) (logs : Logs) → LogsComeFrom logs (D.disk disks) logs (D.disk disks) [] }
    ensures joined { (first second third : D) (old mid new : Logs) (some more : List Change)
        → LogsComeFrom old (D.disk first) mid (D.disk second) some → LogsComeFrom mid (D.disk second) new (D.disk third) more
        → LogsComeFrom old (D.disk first) new (D.disk third) (some ++ more) }
    ensures log { (old new : D) (log after : Unsettled) (events : List Event) → ComesFrom log (D.disk old) after (D.disk new) events
        → LogsComeFrom (alone log) (D.disk old) (alone after) (D.disk new) (added events) }
    ensures settled { (old new : D) (log after : Unsettled) (held : Held) → ComesFrom log (D.disk old) after (D.disk new) []
        → SettlesAll log (D.disk old) after (D.disk new) → IsStanding (alone log) (D.disk old) held
        → IsStanding (alone after) (D.disk new) (with_all_settled held) }
    ensures pages { (old new : D) (logs : Logs) → KeepsOthers Pages (D.disk old) (D.disk new)
        → LogsComeFrom logs (D.disk old) logs (D.disk new) [] }
{}

/// A law, and no work. Every image of logs that stand so reads as the epoch that counts, or as the next one where that is ready.
/// Logs that were read from durable bytes, to their end at a closed seal, stand with what was read settled and nothing pending.
/// An epoch that was written behind a closed seal is ready, where all events are settled and its number is the next one. What
/// is read then is the epoch with its images, and of its events all that are settled and the first so many that are pending; the
/// images of a new epoch are those that were written. An image reads as one thing; with both areas closed that is no index.
pub fn law_epochs<D: Disks>()
    ensures images { (disks : D) (logs : Logs) (held : Held) → IsStanding logs (D.disk disks) held → (image : Image)
        → IsImage (D.disk disks) image → ReadsAny held image }
    ensures opened { (disks : D) (epoch : Epoch) → IsDurable epoch.area (D.disk disks) → IsDurable (other_log epoch.area) (D.disk disks)
        → HEAD ≤ length ((D.disk disks).seen (other_log epoch.area)) → ReadsAs (D.disk disks).seen (Ok (Some epoch)) → epoch.bad ≡ None
        → epoch.end < length ((D.disk disks).seen epoch.area) → epoch.used ≤ LOG_ROOM
        → IsStanding (alone (at_end epoch.area epoch.end epoch.used)) (D.disk disks) (held_of (D.disk disks).seen epoch) }
    ensures ready { (disks : D) (log : Unsettled) (held : Held) (new : NewEpoch) → IsStanding (alone log) (D.disk disks) held
        → IsNext held new → AreAll (IsUnderShut new) (area_of new.epoch) (D.disk disks)
        → LogsGoOn (D.disk disks) (before_next log new) (D.disk disks) held (Ready new ∷ []) }
    ensures epoch { (held : Held) (image : Image) (images : List (ℕ × Content)) → HasImages held.base images → Reads held image
        → (epoch : Epoch) × ReadsAs image (Ok (Some epoch)) × IsEpochOf held images epoch }
    ensures begun { (new : NewEpoch) → IsNewEpoch new → HasImages (base_of new OPEN) new.images }
    ensures one { (image : Image) (a b : Result (Option Epoch) Spot) → ReadsAs image a → ReadsAs image b → a ≡ b }
    ensures nothing { (image : Image) → IsAside (parity_of Log0) 0 (image Log0) → IsAside (parity_of Log1) 0 (image Log1)
        → ReadsAs image (Ok None) }
{}

/// A law, and no work. An epoch that is written where neither area is open is the first: while its seal is opened every image reads
/// as no index or as this epoch, and once the seal is open the logs stand with it.
pub fn law_first_epoch<D: Disks>()
    ensures images { (new : NewEpoch) (image : Image) → IsNewEpoch new → IsUnderSome new (image (area_of new.epoch))
        → IsAside (parity_of (other_log (area_of new.epoch))) 0 (image (other_log (area_of new.epoch)))
        → ReadsAs image (Ok None) ⊎ Reads (begun new) image }
    ensures stands { (disks : D) (new : NewEpoch) → IsNewEpoch new → AreAll (IsUnder new OPEN) (area_of new.epoch) (D.disk disks)
        → AreAll (IsAside (parity_of (other_log (area_of new.epoch))) 0) (other_log (area_of new.epoch)) (D.disk disks)
        → IsStanding (alone (begun_log new)) (D.disk disks) (begun new) }
{}
