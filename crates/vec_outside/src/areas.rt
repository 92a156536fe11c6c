// Three areas of bytes in memory, and a write in place.
ghost use Rattle.std.specs.Prelude.{◌≡◌, ◌≢◌, ◌≤◌, ◌<◌, ℕ, length, take, drop, vec_len, IfOk, OnOk, OnErr};
ghost use Rattle.std.specs.Bool.{OnTrue, OnFalse};
ghost use Rattle.vec_outside.specs.declared.disks.Area.{Area};
ghost use Rattle.vec_outside.specs.Areas.{bytes_of, is_same as same_area, place_of as area_place};
ghost use Rattle.vec_outside.specs.Disk.{IsTorn, spliced};

use crate::Area;
use std::alloc::{AllocError, Global};

#[derive(Drop)]
pub struct Areas {
    pub pages: Vec<u8>,
    pub log0: Vec<u8>,
    pub log1: Vec<u8>,
}

// Writes over the bytes from a place on, and past the end.
pub fn overwrite(area: &mut Vec<u8>, at: usize, bytes: &[u8]) -> Result<(), AllocError>
    requires { at ≤ vec_len area.old }
    ensures ok { OnOk result (area.new.items ≡ spliced area.old.items at bytes.now) }
    ensures err { OnErr result (area.new.items ≡ area.old.items) }
{
    let room = area.len() - at;
    if bytes.len() <= room {
        let end = at + bytes.len();
        area[at..end].copy_from_slice(bytes);
        return Ok(());
    }
    area.extend_from_slice(&bytes[room..])?;
    let end = at + room;
    area[at..end].copy_from_slice(&bytes[..room]);
    Ok(())
}

// The bytes that a write of so many from a place on takes the place of.
pub fn replaced(alloc: Global, old: &[u8], at: usize, len: usize) -> Result<Vec<u8>, AllocError>
    requires { at ≤ length old.now }
    ensures { IfOk result (λ was. was.items ≡ take len (drop at old.now)) }
{
    let n = len.min(old.len() - at);
    let end = at + n;
    let was = old[at..end].to_vec(alloc)?;
    Ok(was)
}

/// The place of an area among the three, from 0.
pub fn place_of(area: Area) -> usize
    ensures place { result ≡ area_place area }
    ensures within { result < 3 }
{
    match area {
        Area::Pages => 0,
        Area::Log0 => 1,
        Area::Log1 => 2,
    }
}

// Whether two areas are one.
pub fn is_same(a: Area, b: Area) -> bool
    ensures { result ≡ same_area a b }
{
    match (a, b) {
        (Area::Pages, Area::Pages) => true,
        (Area::Log0, Area::Log0) => true,
        (Area::Log1, Area::Log1) => true,
        _ => false,
    }
}

impl Areas {
    pub fn bytes(&self, area: Area) -> &[u8]
        ensures { result.now ≡ bytes_of self.now area }
    {
        match area {
            Area::Pages => &self.pages,
            Area::Log0 => &self.log0,
            Area::Log1 => &self.log1,
        }
    }

    fn overwrite(&mut self, area: Area, at: usize, bytes: &[u8]) -> Result<(), AllocError>
        requires { at ≤ length (bytes_of self.old area) }
        ensures ok { OnOk result (bytes_of self.new area
            ≡ spliced (bytes_of self.old area) at bytes.now) }
        ensures err { OnErr result (bytes_of self.new area ≡ bytes_of self.old area) }
        ensures others { (other : Area) → other ≢ area
            → bytes_of self.new other ≡ bytes_of self.old other }
    {
        match area {
            Area::Pages => overwrite(&mut self.pages, at, bytes),
            Area::Log0 => overwrite(&mut self.log0, at, bytes),
            Area::Log1 => overwrite(&mut self.log1, at, bytes),
        }
    }

    /// Writes the bytes, or where the areas don't take them leaves all as it stands.
    pub fn overwrite_if(
        &mut self,
        takes: bool,
        area: Area,
        at: usize,
        bytes: &[u8],
    ) -> Result<(), AllocError>
        requires { at ≤ length (bytes_of self.old area) }
        ensures taken { OnOk result (OnTrue takes (bytes_of self.new area
            ≡ spliced (bytes_of self.old area) at bytes.now)) }
        ensures failed { OnOk result (OnFalse takes (bytes_of self.new area
            ≡ bytes_of self.old area)) }
        ensures torn { IsTorn at (length bytes.now) (bytes_of self.old area)
            (bytes_of self.new area) }
        ensures others { (other : Area) → other ≢ area
            → bytes_of self.new other ≡ bytes_of self.old other }
    {
        if takes {
            return self.overwrite(area, at, bytes);
        }
        Ok(())
    }
}
