//! The store of a new pool.
ghost use Rattle.std.specs.Prelude.{◌≡◌, ◌<◌, ◌≤◌, IfOk, vec_capacity};
ghost use Rattle.hg_pool.specs.Opening.{IsNewStore};

use crate::frames::Frames;
use crate::maps::Maps;
use crate::places::Places;
use crate::store::{Answers, Store};
use crate::{Config, PoolCounts};
use hg_base::NoMemory;
use hg_clock::Clock;
use hg_space::Space;
use std::alloc::{AllocError, Global};

/// Room for the places of the pages of both files.
fn places(alloc: Global, main_pages: u32, temp_pages: u32) -> Result<Places, AllocError>
    ensures main { IfOk result (λ made. vec_capacity made.main ≡ main_pages) }
    ensures temp { IfOk result (λ made. vec_capacity made.temp ≡ temp_pages) }
{
    Ok(Places {
        main: Vec::with_capacity(alloc, main_pages as usize)?,
        temp: Vec::with_capacity(alloc, temp_pages as usize)?,
    })
}

/// What a pool in which no page is taken keeps. The only error is want of memory.
pub(crate) fn new_store(alloc: Global, config: &Config) -> Result<Store, NoMemory>
    requires some { 0 < config.now.max }
    requires inside { config.now.pool ≤ config.now.max }
    ensures { IfOk result (IsNewStore config.now) }
{
    let main = Space::new(alloc, config.main_pages)?;
    let temp = Space::new(alloc, config.temp_pages)?;
    let Ok(places) = places(alloc, config.main_pages, config.temp_pages) else {
        return Err(NoMemory);
    };
    let clock = Clock::new(alloc, config.max)?;
    let frames = Frames::new(alloc, config.max, config.pool)?;
    Ok(Store {
        frames,
        clock,
        places,
        maps: Maps { main, temp },
        pins: 0,
        lent: 0,
        answers: Answers {
            main: 0,
            temp: 0,
            main_full: 0,
            temp_full: 0,
        },
        counts: PoolCounts {
            reads: 0,
            writes: 0,
            evictions: 0,
        },
    })
}
