//! What an engine keeps of its tables.
ghost use Rattle.std.specs.Prelude.{◌≡◌, ◌<◌, ◌^◌, MatchOption};
ghost use Rattle.hg_table.specs.Marks.{last, Draws};

use crate::open::SelectRoom;
use arrayvec::ArrayVec;
use hg_base::Stamp;
use hg_bind::Places;
use hg_catalog::Catalog;
use hg_dml::ChangeRoom;
use hg_table::Stamps;

/// The tables in order of creation, the stamps that were drawn, and the SELECT at work, where `is_open`; how
/// many frames the pool may have, and how many cursors may be active. `room` is room for the rows of a change,
/// `targets` for the columns of an INSERT or of the items of an UPDATE, and `places` and `columns` for those of the
/// nodes of an UPDATE or a DELETE.
#[derive(Drop)]
pub struct Tables {
    pub catalog: Catalog,
    pub stamps: Stamps,
    pub is_open: bool,
    pub open: SelectRoom,
    pub max: u32,
    pub mpl: u32,
    pub room: ChangeRoom,
    pub targets: ArrayVec<u8, 16>,
    pub places: Places,
    pub columns: ArrayVec<u8, 112>,
}

impl Tables {
    /// The next stamp, if one is left.
    pub fn draw(&mut self) -> Option<Stamp>
        ensures drawn { MatchOption result ((last self.old.stamps ≡ 2 ^ 20) × (self.new.stamps ≡ self.old.stamps))
            (λ s. Draws self.old.stamps self.new.stamps s.0 × (last self.old.stamps < 2 ^ 20)) }
        ensures catalog { self.new.catalog ≡ self.old.catalog }
        ensures targets { self.new.targets ≡ self.old.targets }
        ensures columns { self.new.columns ≡ self.old.columns }
        ensures open { self.new.is_open ≡ self.old.is_open }
        ensures max { self.new.max ≡ self.old.max }
        ensures mpl { self.new.mpl ≡ self.old.mpl }
    {
        let _ = self.stamps.last();
        self.stamps.draw()
    }
}
