//! The objects in memory, called once each and at a fault.
use crate::{CleanDevice, Failed, MemDevice, MemSink, MemSource, PageDevice, Sink, Source};
use std::test::Fail;

#[test]
fn a_source_gives_its_bytes(rt: HostRuntime) -> Result<(), Fail> {
    let alloc = rt.alloc();
    let mut source = MemSource::new(
        Vec::from_slice(alloc, b"abcde")?,
        Vec::from_slice(alloc, &[2])?,
    );
    let mut buf = [0; 3];
    let counts = (
        source.read(&mut buf),
        source.read(&mut buf),
        source.read(&mut buf),
        source.read(&mut buf),
    );
    assert_eq!(rt; counts, (Ok(3), Err(Failed), Ok(2), Ok(0)));
    assert_eq!(rt; buf, *b"dec");
    Ok(())
}

#[test]
fn a_sink_keeps_what_it_takes(rt: HostRuntime) -> Result<(), Fail> {
    let alloc = rt.alloc();
    let mut sink = MemSink::new(alloc, Vec::from_slice(alloc, &[2])?);
    let counts = (sink.write(b"ab"), sink.write(b"x"), sink.write(b"c"));
    assert_eq!(rt; counts, (Ok(2), Err(Failed), Ok(1)));
    assert_eq!(rt; sink.bytes(), b"abc".as_slice());
    Ok(())
}

#[test]
fn a_device_keeps_its_pages(rt: HostRuntime) -> Result<(), Fail> {
    let alloc = rt.alloc();
    let mut device = MemDevice::new(
        alloc,
        Vec::from_slice(alloc, &[3])?,
        Vec::from_slice(alloc, &[2])?,
    );
    let mut buf = [9; 4096];
    let fresh = device.read(7, &mut buf);
    let zeros = buf[4095];
    let written = (device.write(7, &[5; 4096]), device.write(7, &[6; 4096]));
    let kept = device.read(7, &mut buf);
    let five = buf[4095];
    let failed = device.read(7, &mut buf);
    assert_eq!(rt; (fresh, zeros), (Ok(()), 0));
    assert_eq!(rt; written, (Ok(()), Err(Failed)));
    assert_eq!(rt; (kept, five, failed), (Ok(()), 5, Err(Failed)));
    assert_eq!(rt; (device.reads(), device.limit()), (3, 1_048_576));
    Ok(())
}

#[test]
fn a_clean_device_keeps_its_pages(rt: HostRuntime) -> Result<(), Fail> {
    let mut device = CleanDevice::new(rt.alloc(), 64)?;
    let mut buf = [9; 4096];
    let fresh = device.read(63, &mut buf);
    assert_eq!(rt; (device.limit(), fresh), (64, Ok(())));
    assert_eq!(rt; buf, [0; 4096]);
    let written = device.write(63, &[5; 4096]);
    let kept = device.read(63, &mut buf);
    assert_eq!(rt; (written, kept), (Ok(()), Ok(())));
    assert_eq!(rt; buf, [5; 4096]);
    let other = device.read(62, &mut buf);
    assert_eq!(rt; other, Ok(()));
    assert_eq!(rt; buf, [0; 4096]);
    Ok(())
}
