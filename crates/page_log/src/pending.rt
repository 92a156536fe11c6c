//! A batch that was taken out of the log.

ghost use Rattle.std.specs.Prelude.{◌≡◌, ◌+◌, ◌≤◌, ◌^◌, length};
ghost use Rattle.page_log.specs.Going.{body_of, payload};
ghost use Rattle.index_sizes.specs.declared.limits.TheConstants.{LOG_ROOM};

use vec_outside::Area;

/// A batch that was taken out of the log to be written to the disks. `bytes` are what stands behind its seal: four bytes of
/// the length of its events, the events, and a closed seal; with no event there are none. `events` is how many it has. `at` is
/// the place of its seal in `area`. `fixed` says that only the seal is still to be written. `bare` says that the area ended
/// at that place, and that the byte 0 there was begun and not yet synced, so that the next flush begins with it again.
#[derive(Drop)]
pub struct Pending {
    pub bytes: Vec<u8>,
    pub events: u64,
    pub area: Area,
    pub at: u64,
    pub fixed: bool,
    pub bare: bool,
    pub ghost whole: { bytes.items ≡ body_of (payload bytes.items) },
    pub ghost few: { length bytes.items ≤ LOG_ROOM },
    pub ghost counted: { events ≤ LOG_ROOM },
    pub ghost within: { at + length bytes.items ≤ 2 ^ 33 },
}
