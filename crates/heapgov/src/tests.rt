//! The two streams, once each, over memory, and a device over a real file in the current folder.
use crate::files::FileDevice;
use crate::streams::{StdSink, StdSource};
use hg_io::{Failed, PageDevice, Sink, Source};
use std::fs;
use std::test::Fail;

#[test]
fn a_reader_is_a_source(rt: HostRuntime) -> Result<(), Fail> {
    let mut source = StdSource::new(b"abc".as_slice());
    let mut buf = [0; 2];
    let counts = (
        source.read(&mut buf),
        source.read(&mut buf),
        source.read(&mut buf),
    );
    assert_eq!(rt; counts, (Ok(2), Ok(1), Ok(0)));
    assert_eq!(rt; buf[0], b'c');
    Ok(())
}

#[test]
fn a_writer_is_a_sink(rt: HostRuntime) -> Result<(), Fail> {
    let mut sink = StdSink::new(Vec::<u8>::new(rt.alloc()));
    assert_eq!(rt; sink.write(b"abc"), Ok(3));
    Ok(())
}

#[test]
fn a_file_is_a_device(rt: HostRuntime) -> Result<(), Fail> {
    fs::write(&rt, "device.test", b"what stood in it")?;
    let mut device = FileDevice::new(&rt, "device.test");
    let mut buf = [9; 4096];
    let made = (device.write(2, &[5; 4096]), device.read(0, &mut buf));
    assert_eq!(rt; made, (Ok(()), Ok(())));
    assert_eq!(rt; buf, [0; 4096], "nothing was written there");
    let kept = device.read(2, &mut buf);
    assert_eq!(rt; (kept, device.limit()), (Ok(()), 1_048_576));
    assert_eq!(rt; buf, [5; 4096], "what was written");
    let beyond = device.read(1_048_575, &mut buf);
    assert_eq!(rt; beyond, Ok(()));
    assert_eq!(rt; buf, [0; 4096], "beyond the end");
    fs::remove_file(&rt, "device.test")?;
    let mut nowhere = FileDevice::new(&rt, "no such folder/device.test");
    let failed = (nowhere.read(0, &mut buf), nowhere.write(0, &[5; 4096]));
    assert_eq!(rt; failed, (Err(Failed), Err(Failed)));
    Ok(())
}

#[test]
fn a_file_is_held_by_one_device(rt: HostRuntime) -> Result<(), Fail> {
    let mut first = FileDevice::new(&rt, "held.test");
    let mut second = FileDevice::new(&rt, "held.test");
    let mut buf = [9; 4096];
    let made = first.write(0, &[5; 4096]);
    let refused = (second.read(0, &mut buf), second.write(0, &[6; 4096]));
    let kept = first.read(0, &mut buf);
    assert_eq!(rt; (made, kept), (Ok(()), Ok(())));
    assert_eq!(rt; refused, (Err(Failed), Err(Failed)));
    assert_eq!(rt; buf, [5; 4096], "the second device left it alone");
    drop(first);
    assert_eq!(rt; second.read(0, &mut buf), Ok(()));
    assert_eq!(rt; buf, [0; 4096], "it begins with an empty file");
    fs::remove_file(&rt, "held.test")?;
    Ok(())
}
