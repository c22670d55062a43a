//! The first page of an engine, which is kept for the catalog.
ghost use Rattle.std.specs.Prelude.{◌<◌};
ghost use Rattle.hg_base.specs.Space.{NoPins};
ghost use Rattle.hg_base.specs.declared.File.TheVariants.{Main};
ghost use Rattle.hg_pool.specs.Shown.{state_of, CalledNone};
ghost use Rattle.hg_pool.specs.Work.{IsUnused};
ghost use Rattle.hg_engine.specs.Opened.{TakesFirst};

use hg_base::{File, Pages};
use hg_io::PageDevice;
use hg_pool::Pool;

/// Takes a page of the main file, which stays zeros. No device is called, since no page was taken.
pub fn take_first<M: PageDevice, T: PageDevice>(pool: &mut Pool<M, T>)
    requires unused { IsUnused (state_of M.PageDevice T.PageDevice pool.old) }
    requires out { NoPins (state_of M.PageDevice T.PageDevice pool.old) }
    requires room { 0 < (state_of M.PageDevice T.PageDevice pool.old).limit Main }
    ensures taken { TakesFirst (state_of M.PageDevice T.PageDevice pool.old) (state_of M.PageDevice T.PageDevice pool.new) }
    ensures calls_none { CalledNone pool.old pool.new }
{
    match pool.fresh(File::Main) {
        Ok(pin) => pool.unpin(pin),
        Err(_) => unreachable!(),
    }
}
