//! A script through an engine over two devices that never fail.

use hg_engine::{Config, Engine};
use hg_io::{CleanDevice, MemSink, MemSource, PageDevice};
use hg_serve::{Devices, Status, serve};
use std::alloc::{AllocError, Global};

/// How many pages each device has.
const PAGES: u32 = 64;

fn device(alloc: Global) -> Result<CleanDevice, AllocError> {
    match CleanDevice::new(alloc, PAGES) {
        Ok(device) => Ok(device),
        Err(_) => Err(AllocError),
    }
}

/// What a script gives: how it ended, and what was written.
pub fn run_clean(alloc: Global, script: &[u8]) -> Result<(Status, MemSink), AllocError> {
    let main = device(alloc)?;
    let temp = device(alloc)?;
    if main.limit() < PAGES || temp.limit() < PAGES {
        return Err(AllocError);
    }
    let config = Config {
        max: 16,
        pool: 16,
        mpl: 1,
        main_pages: PAGES,
        temp_pages: PAGES,
    };
    let mut source = MemSource::new(Vec::from_slice(alloc, script)?, Vec::new(alloc));
    let mut sink = MemSink::new(alloc, Vec::new(alloc));
    let Ok(mut engine) = Engine::new(alloc, &config, main, temp) else {
        return Err(AllocError);
    };
    let status = serve(&mut engine, &mut source, &mut sink);
    let Devices { main: _, temp: _ } = engine.close();
    Ok((status, sink))
}
