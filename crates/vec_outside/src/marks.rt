// A mark for each area.
ghost use Rattle.std.specs.Prelude.{◌≡◌, false};
ghost use Rattle.vec_outside.specs.Marks.{is_marked, marked};
ghost use Rattle.vec_outside.specs.declared.disks.Area.{Area};

use crate::Area;

/// Which areas are marked.
#[derive(Drop)]
pub struct Marks {
    pub pages: bool,
    pub log0: bool,
    pub log1: bool,
}

/// No area is marked.
pub fn no_marks() -> Marks
    ensures { (area : Area) → is_marked result area ≡ false }
{
    Marks {
        pages: false,
        log0: false,
        log1: false,
    }
}

impl Marks {
    pub fn has(&self, area: Area) -> bool
        ensures { result ≡ is_marked self.now area }
    {
        match area {
            Area::Pages => self.pages,
            Area::Log0 => self.log0,
            Area::Log1 => self.log1,
        }
    }

    /// Marks an area, and leaves the others as they are.
    pub fn mark(&mut self, area: Area)
        ensures { self.new ≡ marked self.old area }
    {
        match area {
            Area::Pages => self.pages = true,
            Area::Log0 => self.log0 = true,
            Area::Log1 => self.log1 = true,
        }
    }
}
