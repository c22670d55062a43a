//! The maps of the pages of both files.
ghost use Rattle.std.specs.Prelude.{◌≡◌, true, false, None, IsNone, IfSome};
ghost use Rattle.hg_base.specs.Space.{at, key, taken_below};
ghost use Rattle.hg_pool.specs.Picture.{taken_at, next_at, limit_of};
ghost use Rattle.hg_pool.specs.Keeping.{MapsAfter, TakesLowest, IsFullIn};

use hg_base::{File, PageId};
use hg_space::Space;

/// The maps of the pages of both files.
#[derive(Drop)]
pub(crate) struct Maps {
    pub(crate) main: Space,
    pub(crate) temp: Space,
}

impl Maps {
    pub(crate) fn is_taken(&self, page: PageId) -> bool
        ensures { result ≡ taken_at self.now (key page) }
    {
        match page.file {
            File::Main => self.main.is_used(page.no),
            File::Temp => self.temp.is_used(page.no),
        }
    }

    /// How many pages the file may have.
    pub(crate) fn limit(&self, file: File) -> u32
        ensures { result ≡ limit_of self.now file }
    {
        match file {
            File::Main => self.main.limit(),
            File::Temp => self.temp.limit(),
        }
    }

    /// How many pages of the file are taken.
    pub(crate) fn used(&self, file: File) -> u32
        ensures { result ≡ taken_below (taken_at self.now) file (limit_of self.now file) }
    {
        match file {
            File::Main => self.main.used(),
            File::Temp => self.temp.used(),
        }
    }

    /// Takes the lowest page of the file that is not taken.
    pub(crate) fn take(&mut self, file: File) -> Option<u32>
        ensures some { IfSome result (λ no. TakesLowest file self.old self.new no) }
        ensures none { IsNone result → IsFullIn self.old file }
    {
        match file {
            File::Main => self.main.take(),
            File::Temp => self.temp.take(),
        }
    }

    pub(crate) fn release(&mut self, page: PageId)
        requires { taken_at self.old (key page) ≡ true }
        ensures { MapsAfter self.old self.new (at (taken_at self.old) (key page) false) (at (next_at self.old) (key page) None) }
    {
        match page.file {
            File::Main => self.main.release(page.no),
            File::Temp => self.temp.release(page.no),
        }
    }

    pub(crate) fn next(&self, page: PageId) -> Option<u32>
        requires { taken_at self.now (key page) ≡ true }
        ensures { result ≡ next_at self.now (key page) }
    {
        match page.file {
            File::Main => self.main.next(page.no),
            File::Temp => self.temp.next(page.no),
        }
    }

    pub(crate) fn set_next(&mut self, page: PageId, next: Option<u32>)
        requires { taken_at self.old (key page) ≡ true }
        ensures { MapsAfter self.old self.new (taken_at self.old) (at (next_at self.old) (key page) next) }
    {
        match page.file {
            File::Main => self.main.set_next(page.no, next),
            File::Temp => self.temp.set_next(page.no, next),
        }
    }
}
