//! Tests with real files, whose bytes no contract knows, and one test of each source and sink of the system.
use crate::{
    ClosedSource, FileSource, ReaderSource, Sink, SinkFailed, Source, SourceFailed, WriterSink,
    write_all,
};
use std::fs::File;
use std::io::{ErrorKind, Read, Write};
use std::test::Fail;
use std::{env, fs, io, process};

/// A reader and writer that moves one byte a call. Calls fail and succeed in turn, and the first one fails.
#[derive(Drop)]
struct Faltering {
    is_well: bool,
}

impl Read for Faltering {
    fn read(&mut self, into: &mut [u8]) -> io::Result<usize> {
        self.is_well = !self.is_well;
        if !self.is_well {
            return Err(ErrorKind::Other.into());
        }
        Ok(into.len().min(1))
    }
}

impl Write for Faltering {
    fn write(&mut self, piece: &[u8]) -> io::Result<usize> {
        self.is_well = !self.is_well;
        if !self.is_well {
            return Err(ErrorKind::Other.into());
        }
        Ok(piece.len().min(1))
    }

    fn flush(&mut self) -> io::Result<()> {
        Ok(())
    }
}

// No contract says when a reader or a writer fails. So no contract says that each is called once and that its
// failure is reported.
#[test]
fn each_failed_read_is_told(rt: HostRuntime) {
    let mut source = ReaderSource::new(Faltering { is_well: true });
    let mut buffer = [0; 2];
    for _ in 0..3u8 {
        assert_eq!(rt; source.read(&mut buffer), Err(SourceFailed));
        assert_eq!(rt; source.read(&mut buffer), Ok(1));
    }
}

#[test]
fn each_failed_write_is_told(rt: HostRuntime) {
    let mut sink = WriterSink::new(Faltering { is_well: true });
    for piece in ["ab", "", "abc"] {
        assert_eq!(rt; sink.write(piece.as_bytes()), Err(SinkFailed));
        assert_eq!(rt; sink.write(piece.as_bytes()), Ok(piece.len().min(1)));
    }
    assert_eq!(rt; write_all(&mut sink, b"a"), Err(SinkFailed));
    assert_eq!(rt; write_all(&mut sink, b"a"), Ok(()));
}

#[test]
fn faults_have_texts(rt: HostRuntime) -> Result<(), Fail> {
    let told = format!(in rt.alloc(); "{SourceFailed}; {SinkFailed}")?;
    assert_eq!(rt; told.as_str(), "a read failed; a write failed");
    Ok(())
}

#[test]
fn files(rt: HostRuntime) -> Result<(), Fail> {
    let name = format!(in rt.alloc(); "vx_io-test-{}", process::id(rt.process()))?;
    let path = env::temp_dir(&rt)?.join(rt.alloc(), name.as_str())?;

    let mut sink = WriterSink::new(File::create(&rt, path.as_path())?);
    assert_eq!(rt; write_all(&mut sink, b"abc"), Ok(()));
    assert_eq!(rt; write_all(&mut sink, b"defg"), Ok(()));
    drop(sink);

    let mut source = FileSource::new(File::open(&rt, path.as_path())?);
    let mut buffer = [0; 5];
    for want in ["abcde", "fg", "", ""] {
        let read = source.read(&mut buffer);
        let given = read.ok().map(|count| &buffer[..count]);
        assert_eq!(rt; given, Some(want.as_bytes()));
    }

    // A file opened for reading can't be written, and one opened for writing can't be read.
    let mut sink = WriterSink::new(File::open(&rt, path.as_path())?);
    assert_eq!(rt; sink.write(b"abc"), Err(SinkFailed));
    let mut source = FileSource::new(File::create(&rt, path.as_path())?);
    assert_eq!(rt; source.read(&mut buffer), Err(SourceFailed));
    fs::remove_file(&rt, path.as_path())?;
    Ok(())
}

#[test]
fn a_full_writer_fails(rt: HostRuntime) {
    let mut room = [0; 4];
    let mut sink = WriterSink::new(room.as_mut_slice());
    assert_eq!(rt; sink.write(b"abc"), Ok(3));
    assert_eq!(rt; sink.write(b"def"), Ok(1));
    assert_eq!(rt; sink.write(b"ef"), Err(SinkFailed));
    assert_eq!(rt; sink.write(b""), Ok(0));
}

#[test]
fn a_closed_source_fails(rt: HostRuntime) {
    let mut source = ClosedSource::new();
    let mut buffer = [0; 5];
    for _ in 0..3u8 {
        assert_eq!(rt; source.read(&mut buffer), Err(SourceFailed));
    }
}

#[test]
fn a_reader_gives_its_bytes(rt: HostRuntime) {
    let mut source = ReaderSource::new(b"abcde".as_slice());
    let mut buffer = [0; 3];
    assert_eq!(rt; source.read(&mut buffer), Ok(3));
    assert_eq!(rt; buffer.as_slice(), b"abc".as_slice());
    assert_eq!(rt; source.read(&mut buffer), Ok(2));
    assert_eq!(rt; &buffer[..2], b"de".as_slice());
    assert_eq!(rt; source.read(&mut buffer), Ok(0));
}
