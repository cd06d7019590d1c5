use rds_link::*;
use std::alloc::Global;
use std::test::*;

// Whether these are the bytes that a source gives, of as many as are asked for at most.
fn gives<S: Source>(alloc: Global, source: &mut S, most: usize, bytes: &[u8]) -> bool {
    let Ok(read) = read_all(alloc, source, most) else {
        return false;
    };
    read.as_slice() == bytes
}

// Whether these are the bytes that are read of a text, of as many as are asked for at most.
fn is_read(alloc: Global, most: usize, bytes: &[u8]) -> bool {
    let Ok(text) = b"some text".to_vec(alloc) else {
        return false;
    };
    let mut source = MemSource::new(text, Vec::new(alloc));
    gives(alloc, &mut source, most, bytes)
}

#[test]
fn a_source_is_read_to_its_end(rt: HostRuntime) {
    assert!(rt; is_read(rt.alloc(), 100, b"some text"));
    assert!(rt; is_read(rt.alloc(), 4, b"some"));
}

// Whether a read of a source fails.
fn fails<S: Source>(alloc: Global, source: &mut S) -> bool {
    read_all(alloc, source, 100).err() == Some(ReadError::Failed)
}

// Whether a source in memory fails once where the reads with these numbers fail.
fn fails_once(alloc: Global, fail: Vec<u32>) -> bool {
    let Ok(text) = b"some text".to_vec(alloc) else {
        return false;
    };
    let mut source = MemSource::new(text, fail);
    fails(alloc, &mut source) && source.faults() == 1
}

#[test]
fn the_second_read_fails(rt: HostRuntime) -> Result<(), Fail> {
    let fail = vec![in rt.alloc(); 2]?;
    assert!(rt; fails_once(rt.alloc(), fail));
    Ok(())
}

// Whether a sink takes a first text, and not a second one.
fn takes_one<K: Sink>(sink: &mut K) -> bool {
    write_all(sink, b"some ") == Ok(()) && write_all(sink, b"text") == Err(Failed)
}

// Whether a sink in memory holds the first of two texts where the writes with these numbers fail.
fn holds_one(alloc: Global, fail: Vec<u32>) -> bool {
    let mut sink = MemSink::new(alloc, fail);
    takes_one(&mut sink) && sink.held() == b"some ".as_slice() && sink.faults() == 1
}

#[test]
fn the_second_write_fails(rt: HostRuntime) -> Result<(), Fail> {
    let fail = vec![in rt.alloc(); 2]?;
    assert!(rt; holds_one(rt.alloc(), fail));
    Ok(())
}

#[test]
fn any_reader_and_writer_will_do(rt: HostRuntime) {
    let mut source = StdSource::new(b"some text".as_slice());
    assert!(rt; gives(rt.alloc(), &mut source, 100, b"some text"));
    let mut sink = StdSink::new(Vec::new(rt.alloc()));
    assert!(rt; write_all(&mut sink, b"some text").is_ok());
}
