//! Devices that give and take little at a time, and that fail at each call in turn.

use super::*;
use std::alloc::{AllocError, Global};
use std::io;
use std::io::{BufWriter, ErrorKind, Read, Write};
use std::test::Fail;

const TEXT: &[u8] = b"one\ntwo\nthree\n";

fn printed<K: Sink>(
    alloc: Global,
    out: &mut K,
    text: &[u8],
) -> Result<Result<(), Failed>, AllocError> {
    let mut page = Page::new(alloc)?;
    for byte in text {
        page.write_byte(out, *byte);
    }
    page.write(out, text);
    Ok(page.finish(out))
}

#[test]
fn an_input_is_read_to_its_end_or_to_the_limit(rt: HostRuntime) -> Result<(), Fail> {
    let alloc = rt.alloc();
    for (most_a_read, most, is_whole) in [
        (1, 15, true),
        (1, 14, false),
        (100, 15, true),
        (100, 14, false),
        (3, 1, false),
        (3, 0, false),
    ] {
        let bytes = Vec::from_slice(alloc, TEXT)?;
        let mut source = MemSource::new(bytes, most_a_read, Vec::new(alloc));
        match read_all(alloc, &mut source, most) {
            Ok(bytes) => assert!(rt;
                is_whole && bytes.as_slice() == TEXT,
                "{most_a_read} {most}"
            ),
            Err(fault) => assert!(rt;
                !is_whole && fault == ReadAllFault::TooLong,
                "{most_a_read} {most}"
            ),
        }
    }
    Ok(())
}

#[test]
fn a_read_that_fails_loses_no_byte(rt: HostRuntime) -> Result<(), Fail> {
    let alloc = rt.alloc();
    for number in 0..15u64 {
        let bytes = Vec::from_slice(alloc, TEXT)?;
        let fails = Vec::from_slice(alloc, &[number])?;
        let mut source = MemSource::new(bytes, 1, fails);
        assert_eq!(rt;
            read_all(alloc, &mut source, 100).err(),
            Some(ReadAllFault::Failed)
        );
        let rest = read_all(alloc, &mut source, 100).ok().ok_or("no rest")?;
        assert!(rt;
            TEXT.ends_with(&rest) && rest.len() as u64 == 14 - number,
            "{number}"
        );
    }
    Ok(())
}

#[test]
fn a_text_is_written_as_far_as_the_sink_takes_it(rt: HostRuntime) -> Result<(), Fail> {
    let alloc = rt.alloc();
    for (room, most, fails, is_whole, length) in [
        (14, 1, 15, true, 14),
        (100, 100, 2, true, 14),
        (100, 1, 0, false, 0),
        (100, 1, 9, false, 9),
        (100, 1, 13, false, 13),
        // the flush
        (100, 1, 14, false, 14),
        (5, 1, 15, false, 5),
        (0, 100, 15, false, 0),
    ] {
        let fails = Vec::from_slice(alloc, &[fails])?;
        let mut sink = MemSink::new(alloc, room, most, fails)?;
        let mut page = Page::new(alloc)?;
        page.write(&mut sink, b"one\ntwo\n");
        page.write_byte(&mut sink, b't');
        page.write(&mut sink, b"hree\n");
        assert_eq!(rt; page.finish(&mut sink).is_ok(), is_whole, "{room} {most}");
        assert!(rt; TEXT.starts_with(sink.bytes()), "{room} {most}");
        assert_eq!(rt; sink.bytes().len(), length, "{room} {most}");
    }
    Ok(())
}

/// A text that is longer than a page.
fn long_text(alloc: Global) -> Result<Vec<u8>, AllocError> {
    let mut text = Vec::new(alloc);
    for number in 0..70_000u32 {
        text.push((number % 251) as u8)?;
    }
    Ok(text)
}

#[test]
fn a_text_longer_than_a_page_is_written_in_order(rt: HostRuntime) -> Result<(), Fail> {
    let alloc = rt.alloc();
    let text = long_text(alloc)?;
    let mut sink = MemSink::new(alloc, 140_000, 50_000, Vec::new(alloc))?;
    assert!(rt; printed(alloc, &mut sink, &text)?.is_ok());
    assert_eq!(rt; sink.bytes().len(), 140_000);
    assert!(rt; sink.bytes().starts_with(&text));
    assert!(rt; sink.bytes().ends_with(&text));
    Ok(())
}

#[test]
fn nothing_is_written_after_a_write_that_failed(rt: HostRuntime) -> Result<(), Fail> {
    let alloc = rt.alloc();
    let text = long_text(alloc)?;
    let fails = Vec::from_slice(alloc, &[1])?;
    let mut sink = MemSink::new(alloc, 140_000, 50_000, fails)?;
    assert!(rt; printed(alloc, &mut sink, &text)?.is_err());
    assert_eq!(rt; sink.bytes().len(), 50_000);
    assert!(rt; text.starts_with(sink.bytes()));
    Ok(())
}

#[test]
fn sure_devices_give_and_take_all(rt: HostRuntime) -> Result<(), Fail> {
    let alloc = rt.alloc();
    let mut source = SureSource::new(long_text(alloc)?);
    let text = read_all(alloc, &mut source, 100_000)
        .ok()
        .ok_or("not read")?;
    assert_eq!(rt; text.as_slice(), long_text(alloc)?.as_slice());
    assert!(rt; printed(alloc, &mut SureSink::new(), &text)?.is_ok());
    Ok(())
}

#[test]
fn std_devices_give_and_take_bytes(rt: HostRuntime) -> Result<(), Fail> {
    let alloc = rt.alloc();
    let mut source = StdSource::new(TEXT);
    let bytes = read_all(alloc, &mut source, 100).ok().ok_or("not read")?;
    assert_eq!(rt; bytes.as_slice(), TEXT);

    // the buffer is empty once it is flushed
    let mut written = BufWriter::new(alloc, Vec::new(alloc))?;
    assert!(rt; printed(alloc, &mut StdSink::new(&mut written), b"one")?.is_ok());
    assert!(rt; written.buffer().is_empty());
    assert_eq!(rt; written.get_ref().as_slice(), b"oneone".as_slice());

    // a writer that is full takes nothing
    let mut room = [0; 5];
    assert!(rt; send(&mut StdSink::new(room.as_mut_slice()), TEXT).is_err());
    assert!(rt; TEXT.starts_with(&room));
    Ok(())
}

/// A reader and writer of std whose call of the number `fails` fails. Calls are counted from 0.
#[derive(Drop)]
struct FailsOnce {
    fails: u64,
    kind: ErrorKind,
    calls: u64,
}

impl FailsOnce {
    fn new(fails: u64, kind: ErrorKind) -> FailsOnce {
        FailsOnce {
            fails,
            kind,
            calls: 0,
        }
    }

    fn begin(&mut self) -> io::Result<()> {
        let number = self.calls;
        self.calls = number.saturating_add(1);
        if number == self.fails {
            return Err(io::Error::from(self.kind));
        }
        Ok(())
    }
}

impl Read for FailsOnce {
    fn read(&mut self, _buf: &mut [u8]) -> io::Result<usize> {
        self.begin()?;
        Ok(0)
    }
}

impl Write for FailsOnce {
    fn write(&mut self, buf: &[u8]) -> io::Result<usize> {
        self.begin()?;
        Ok(buf.len())
    }

    fn flush(&mut self) -> io::Result<()> {
        self.begin()
    }
}

#[test]
fn a_reader_that_fails_is_read_once_more_only_by_the_next_call(
    rt: HostRuntime,
) -> Result<(), Fail> {
    for kind in [ErrorKind::Interrupted, ErrorKind::Other] {
        let mut reader = FailsOnce::new(0, kind);
        let mut source = StdSource::new(&mut reader);
        assert_eq!(rt; source.read(&mut [0; 8]), Err(Failed));
        assert_eq!(rt; source.read(&mut [0; 8]), Ok(0));
        assert_eq!(rt; reader.calls, 2);
    }
    Ok(())
}

#[test]
fn a_writer_that_fails_is_tried_once_a_call(rt: HostRuntime) -> Result<(), Fail> {
    for (fails, wrote, flushed) in [
        (0, Err(Failed), Ok(())),
        (1, Ok(3), Err(Failed)),
        (2, Ok(3), Ok(())),
    ] {
        for kind in [ErrorKind::Interrupted, ErrorKind::Other] {
            let mut writer = FailsOnce::new(fails, kind);
            let mut sink = StdSink::new(&mut writer);
            assert_eq!(rt; sink.write(b"one"), wrote);
            assert_eq!(rt; sink.flush(), flushed);
            assert_eq!(rt; writer.calls, 2);
        }
    }
    Ok(())
}

#[test]
fn an_input_and_a_text_end_at_the_first_fault(rt: HostRuntime) -> Result<(), Fail> {
    let alloc = rt.alloc();
    let mut reader = FailsOnce::new(0, ErrorKind::Interrupted);
    let read = read_all(alloc, &mut StdSource::new(&mut reader), 100);
    assert_eq!(rt; read.err(), Some(ReadAllFault::Failed));
    assert_eq!(rt; reader.calls, 1);

    // the write, and then the flush
    for (fails, calls) in [(0, 1), (1, 2)] {
        let mut writer = FailsOnce::new(fails, ErrorKind::Interrupted);
        let printed = printed(alloc, &mut StdSink::new(&mut writer), b"one")?;
        assert_eq!(rt; printed, Err(Failed));
        assert_eq!(rt; writer.calls, calls);
    }
    Ok(())
}

#[test]
fn faults_are_told_in_words(rt: HostRuntime) -> Result<(), Fail> {
    let alloc = rt.alloc();
    let text = format!(in alloc;
        "{Failed}, {}, {}, {}",
        ReadAllFault::Failed,
        ReadAllFault::TooLong,
        ReadAllFault::NoMemory
    )?;
    assert_eq!(rt;
        text.as_str(),
        "a device failed, the input failed, the input is too long, out of memory"
    );
    Ok(())
}
