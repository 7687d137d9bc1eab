//! Tests of `bm_io`: files, and which calls fail.
use bm_base::{List, Text};
use bm_io::{
    Files, IoFault, MemFile, MemFiles, MemSink, MemSource, Sink, Source, StdFiles, StdSink,
    SureFile, SureFiles, SureSink, SureSource, put_all,
};
use std::fs;

#[test]
fn a_file_is_read_and_one_that_is_not_there_is_counted(rt: HostRuntime) {
    assert!(rt; fs::write(&rt, "here", "abc").is_ok());
    let mut files = StdFiles::new(rt);
    let mut src = files.open("here").expect(&rt, "a source");
    let mut buf = [0u8; 8];
    assert!(rt; src.take(&mut buf) == Ok(3));
    assert!(rt; buf == [97, 98, 99, 0, 0, 0, 0, 0]);
    assert!(rt; src.take(&mut buf) == Ok(0));
    files.close(src);
    assert!(rt; matches!(files.open("nowhere"), Err(IoFault::Failed)));
}

#[test]
fn standard_output_takes_a_piece(rt: HostRuntime) {
    let mut out = StdSink::new(rt);
    assert!(rt; put_all(&mut out, b"a piece\n") == Ok(()));
}

#[test]
fn fakes_fail_at_their_calls(rt: HostRuntime) {
    let alloc = rt.alloc();
    let mut src = MemSource::new(
        vec![in alloc; 1, 2, 3].expect(&rt, "memory"),
        2,
        vec![in alloc; 2].expect(&rt, "memory"),
    );
    let mut buf = [0u8; 8];
    assert!(rt; src.take(&mut buf) == Ok(2));
    assert!(rt; src.take(&mut buf).is_err());
    assert!(rt; src.take(&mut buf) == Ok(1));
    let mut sure = SureSource::new(vec![in alloc; 1, 2, 3].expect(&rt, "memory"), 9);
    assert!(rt; sure.take(&mut buf) == Ok(3));
    let mut out = MemSink::new(alloc, vec![in alloc; 2].expect(&rt, "memory"));
    assert!(rt; put_all(&mut out, b"ab") == Ok(()));
    assert!(rt; matches!(put_all(&mut out, b"c"), Err(IoFault::Failed)));
    assert!(rt; out.written() == b"ab".as_slice());
}

#[test]
fn sure_files_give_their_octets_and_nothing_of_other_names(rt: HostRuntime) {
    let alloc = rt.alloc();
    let file = SureFile {
        name: Text::of(String::from_str(alloc, "here").expect(&rt, "memory")),
        octets: List::of(vec![in alloc; 5, 6].expect(&rt, "memory")),
        step: 1,
    };
    let mut files = SureFiles::new(alloc, vec![in alloc; file].expect(&rt, "memory"));
    let mut buf = [0u8; 8];
    let mut src = files.open("here").expect(&rt, "a source");
    assert!(rt; src.take(&mut buf) == Ok(1));
    assert!(rt; buf[0] == 5);
    files.close(src);
    let mut src = files.open("there").expect(&rt, "a source");
    assert!(rt; src.take(&mut buf) == Ok(0));
    files.close(src);
    let mut out = SureSink::new(alloc);
    assert!(rt; put_all(&mut out, b"ab") == Ok(()));
    assert!(rt; out.written() == b"ab".as_slice());
}

#[test]
fn files_in_memory_count_a_name_that_is_not_there(rt: HostRuntime) {
    let alloc = rt.alloc();
    let file = MemFile {
        name: Text::of(String::from_str(alloc, "here").expect(&rt, "memory")),
        octets: List::of(vec![in alloc; 5, 6].expect(&rt, "memory")),
        step: 9,
        fails: List::of(Vec::new(alloc)),
    };
    let mut files = MemFiles::new(alloc, vec![in alloc; file].expect(&rt, "memory"));
    let mut buf = [0u8; 8];
    let mut src = files.open("here").expect(&rt, "a source");
    assert!(rt; src.take(&mut buf) == Ok(2));
    files.close(src);
    assert!(rt; matches!(files.open("there"), Err(IoFault::Failed)));
}
