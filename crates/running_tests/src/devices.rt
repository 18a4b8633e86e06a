//! Devices: those over memory take bytes in steps, and those over the host count its errors.

use std::alloc::Global;
use std::fs::File;
use std::{env, fs, process};
use strm_io::{HostFiles, HostSink, LoadFault, MemFiles, MemSink, Put, Sink, load, put_all};
use strm_num::NoMemory;
use text_pieces::put;

/// More bytes than a memory device gives or takes in two calls.
fn long_text(alloc: Global) -> Result<Vec<u8>, NoMemory> {
    let mut text = Vec::new(alloc);
    for _ in 0..2_000 {
        put(&mut text, b"0123456789")?;
    }
    Ok(text)
}

/// A long file, and a short one that was set twice.
fn two_files(alloc: Global, long: &[u8]) -> Result<MemFiles, NoMemory> {
    let mut files = MemFiles::new(alloc);
    files.add("short", b"old")?;
    files.add("long", long)?;
    files.add("short", b"new")?;
    Ok(files)
}

/// Whether a file was loaded with these bytes.
fn has_bytes(loaded: Result<Vec<u8>, LoadFault>, bytes: &[u8]) -> bool {
    match loaded {
        Ok(got) => got.as_slice() == bytes,
        Err(_) => false,
    }
}

fn is_too_long(loaded: Result<Vec<u8>, LoadFault>) -> bool {
    matches!(loaded, Err(LoadFault::TooLong))
}

fn is_missing(loaded: Result<Vec<u8>, LoadFault>) -> bool {
    matches!(loaded, Err(LoadFault::Missing))
}

#[test]
fn memory_files(rt: HostRuntime) {
    let alloc = rt.alloc();
    let text = long_text(alloc).expect(&rt, "memory");
    let mut files = two_files(alloc, text.as_slice()).expect(&rt, "memory");
    assert!(rt; has_bytes(load(alloc, &mut files, "long", 20_000), text.as_slice()));
    assert!(rt; is_too_long(load(alloc, &mut files, "long", 19_999)));
    assert!(rt; is_missing(load(alloc, &mut files, "none", 19_999)));
    assert!(rt; has_bytes(load(alloc, &mut files, "short", 3), b"new"));
}

#[test]
fn memory_sinks(rt: HostRuntime) {
    let text = long_text(rt.alloc()).expect(&rt, "memory");
    let mut sink = MemSink::with_room(rt.alloc(), 20_005).expect(&rt, "memory");
    assert!(rt; put_all(&mut sink, text.as_slice()).is_ok());
    assert!(rt; sink.bytes() == text.as_slice());
    assert!(rt; put_all(&mut sink, b"seven by").is_err());
    assert!(rt; sink.bytes().ends_with(b"seven"));
}

#[test]
fn host_sinks(rt: HostRuntime) {
    let mut written = Vec::new(rt.alloc());
    let mut sink = HostSink::new(&mut written);
    assert!(rt; put_all(&mut sink, b"two").is_ok());
    assert!(rt; put_all(&mut sink, b" words").is_ok());
    assert!(rt; matches!(sink.put(b""), Put::Took(0)));
    drop(sink);
    assert!(rt; written.as_slice() == b"two words".as_slice());
}

#[test]
fn full_host_sinks(rt: HostRuntime) {
    let mut narrow = [0u8; 4];
    let mut sink = HostSink::new(&mut narrow[..]);
    assert!(rt; put_all(&mut sink, b"fourth").is_err());
    assert!(rt; matches!(sink.put(b"x"), Put::Failed));
    assert!(rt; matches!(sink.put(b""), Put::Took(0)));
    drop(sink);
    assert!(rt; narrow == *b"four");
}

/// Where the system has a device that is always full, a write to it is a fault.
#[test]
fn a_full_device(rt: HostRuntime) {
    if let Ok(full) = File::create(&rt, "/dev/full") {
        let mut sink = HostSink::new(full);
        assert!(rt; put_all(&mut sink, b"text").is_err());
        assert!(rt; matches!(sink.put(b"x"), Put::Failed));
    }
}

#[test]
fn host_files(rt: HostRuntime) {
    let alloc = rt.alloc();
    let text = long_text(alloc).expect(&rt, "memory");
    let id = process::id(rt.process());
    let name = format!(in alloc; "strymonas_test_{id}").expect(&rt, "memory");
    let folder = env::temp_dir(&rt).expect(&rt, "a folder");
    let path = folder.join(alloc, name.as_str()).expect(&rt, "memory");
    fs::write(&rt, path.as_str(), text.as_slice()).expect(&rt, "a file");
    let mut files = HostFiles::new(rt);
    let whole = has_bytes(
        load(alloc, &mut files, path.as_str(), 20_000),
        text.as_slice(),
    );
    let long = is_too_long(load(alloc, &mut files, path.as_str(), 19_999));
    fs::remove_file(&rt, path.as_str()).expect(&rt, "a file");
    assert!(rt; whole && long);
    assert!(rt; is_missing(load(alloc, &mut files, path.as_str(), 20_000)));
}

/// A folder is there and can be opened, and reading it is a fault.
#[test]
fn a_folder_is_no_file(rt: HostRuntime) {
    let folder = env::temp_dir(&rt).expect(&rt, "a folder");
    let mut files = HostFiles::new(rt);
    let loaded = load(rt.alloc(), &mut files, folder.as_str(), 20_000);
    assert!(rt; matches!(loaded, Err(LoadFault::Read)));
}
