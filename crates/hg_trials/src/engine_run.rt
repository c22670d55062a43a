//! A script through an engine over two devices.

use crate::counted::Counted;
use crate::script::MAX;
use hg_engine::{Config, Engine};
use hg_io::{MemDevice, MemSink, MemSource, PageDevice};
use hg_serve::{Devices, Status, serve};
use std::alloc::{AllocError, Global};

/// How many frames are in use at the beginning.
pub const FRAMES: u32 = 16;

/// How many pages the files may have: the main file at least 64, the temporary one too.
#[derive(Clone, Copy)]
pub struct Files {
    pub main_pages: u32,
    pub temp_pages: u32,
}

/// What a script gave, and what the devices were asked for.
#[derive(Drop)]
pub struct Ran {
    pub status: Status,
    pub sink: MemSink,
    pub reads: u64,
    pub writes: u64,
    pub temp_reads: u64,
    pub temp_writes: u64,
}

/// Runs a script over two devices.
pub fn run_over(
    alloc: Global,
    mut source: MemSource,
    main: Counted<MemDevice>,
    temp: Counted<MemDevice>,
    files: &Files,
) -> Result<Ran, AllocError> {
    let (main_pages, temp_pages) = (files.main_pages, files.temp_pages);
    let config = Config {
        max: MAX,
        pool: FRAMES,
        mpl: 1,
        main_pages,
        temp_pages,
    };
    let fits = main_pages >= 64 && main_pages <= 65_536 && temp_pages >= 64 && temp_pages <= 65_536;
    if !fits || main.limit() < main_pages || temp.limit() < temp_pages {
        return Err(AllocError);
    }
    let mut sink = MemSink::new(alloc, Vec::new(alloc));
    let Ok(mut engine) = Engine::new(alloc, &config, main, temp) else {
        return Err(AllocError);
    };
    let status = serve(&mut engine, &mut source, &mut sink);
    let Devices { main, temp } = engine.close();
    Ok(Ran {
        status,
        sink,
        reads: main.reads,
        writes: main.writes,
        temp_reads: temp.reads,
        temp_writes: temp.writes,
    })
}
