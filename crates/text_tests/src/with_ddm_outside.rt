//! Tests of shelves and sinks.

ghost use Rattle.std.specs.Prelude.{◌≡◌, ◌<◌, ◌≤◌, All, length, IfOk};

use crate::of_ddm_text::Text;
use ddm_outside::{
    Failed, FileShelf, MemoryShelf, MemorySink, NamedFile, Shelf, Sink, SoundShelf, SoundSink,
    StdSink,
};
use std::alloc::Global;
use std::io::Write;
use std::os::fd::AsRawFd;
use std::test::Fail;
use std::{fs, io};

fn read_from<F: Shelf>(files: &mut F, name: &str, at: u64, into: &mut [u8]) -> Result<usize, Failed>
    requires { 0 < length into.old }
    ensures { IfOk result (λ n. n ≤ length into.new) }
{
    files.read(name, at, into)
}

fn write_to<K: Sink>(sink: &mut K, bytes: &[u8]) -> Result<usize, Failed>
    requires { 0 < length bytes.now }
{
    sink.write(bytes)
}

fn two_files(alloc: Global) -> Result<Vec<NamedFile>, Fail>
    ensures { IfOk result (λ files. All (λ file. file.faults ≡ 0) files.items) }
{
    let first = NamedFile {
        name: Text::of(alloc, "tree")?,
        bytes: b"a first file".to_vec(alloc)?,
        faults: 0,
    };
    let second = NamedFile {
        name: Text::of(alloc, "tree")?,
        bytes: b"another".to_vec(alloc)?,
        faults: 0,
    };
    let mut files = Vec::new(alloc);
    files.push(first)?;
    files.push(second)?;
    Ok(files)
}

#[test]
fn a_memory_shelf_fails_at_a_number_and_at_a_missing_name(rt: HostRuntime) -> Result<(), Fail> {
    let alloc = rt.alloc();
    let mut shelf = MemoryShelf::new(two_files(alloc)?, vec![in alloc; 1, 3]?);
    let mut into = [0u8; 8];
    assert_eq!(rt; read_from(&mut shelf, "tree", 0, &mut into), Ok(8));
    assert_eq!(rt; into.as_slice(), b"a first ".as_slice());
    assert_eq!(rt; read_from(&mut shelf, "tree", 8, &mut into), Err(Failed));
    assert_eq!(rt; read_from(&mut shelf, "tree", 8, &mut into), Ok(4));
    assert_eq!(rt; into[..4], b"file"[..]);
    assert_eq!(rt; read_from(&mut shelf, "tree", 12, &mut into), Err(Failed));
    assert_eq!(rt; read_from(&mut shelf, "tree", 12, &mut into), Ok(0));
    assert_eq!(rt; read_from(&mut shelf, "image", 0, &mut into), Err(Failed));
    Ok(())
}

#[test]
fn a_memory_sink_fails_at_a_number_and_where_it_is_full(rt: HostRuntime) -> Result<(), Fail> {
    let alloc = rt.alloc();
    let mut sink = MemorySink::new(alloc, 25, 10, vec![in alloc; 1]?)?;
    assert_eq!(rt; write_to(&mut sink, b"turns 2 retired 2"), Ok(10));
    assert_eq!(rt; write_to(&mut sink, b"tired 2"), Err(Failed));
    assert_eq!(rt; write_to(&mut sink, b"tired 2"), Ok(7));
    assert_eq!(rt; write_to(&mut sink, b" granted 0 busy 0"), Ok(8));
    assert_eq!(rt; write_to(&mut sink, b"0"), Err(Failed));
    assert_eq!(rt; sink.bytes(), b"turns 2 retired 2 granted".as_slice());
    Ok(())
}

#[test]
fn a_sound_shelf_has_every_name(rt: HostRuntime) -> Result<(), Fail> {
    let mut shelf = SoundShelf::new(two_files(rt.alloc())?);
    let mut into = [0u8; 64];
    assert_eq!(rt; read_from(&mut shelf, "tree", 8, &mut into), Ok(4));
    assert_eq!(rt; into[..4], b"file"[..]);
    assert_eq!(rt; read_from(&mut shelf, "image", 0, &mut into), Ok(0));
    Ok(())
}

#[test]
fn a_sound_sink_takes_all(rt: HostRuntime) {
    let mut sink = SoundSink::new();
    assert_eq!(rt; write_to(&mut sink, b"ddm 1\n"), Ok(6));
    assert_eq!(rt; write_to(&mut sink, b"end\n"), Ok(4));
    assert_eq!(rt; sink.taken(), 10);
}

#[test]
fn a_file_shelf_reads_a_file_of_the_system(rt: HostRuntime) -> Result<(), Fail> {
    let alloc = rt.alloc();
    let name = format!(in alloc; "/tmp/ddm_outside_{}", std::process::id(rt.process()))?;
    fs::write(&rt, name.as_str(), b"a file of the test")?;
    let mut shelf = FileShelf::new(&rt);
    let mut into = [0u8; 6];
    let front = read_from(&mut shelf, name.as_str(), 2, &mut into);
    let past = read_from(&mut shelf, name.as_str(), 18, &mut [0u8; 6]);
    fs::remove_file(&rt, name.as_str())?;
    let still_open = read_from(&mut shelf, name.as_str(), 12, &mut [0u8; 6]);
    let mut other = FileShelf::new(&rt);
    let gone = read_from(&mut other, name.as_str(), 0, &mut [0u8; 6]);
    assert_eq!(rt; front, Ok(6));
    assert_eq!(rt; into.as_slice(), b"file o".as_slice());
    assert_eq!(rt; past, Ok(0));
    assert_eq!(rt; still_open, Ok(6));
    assert_eq!(rt; gone, Err(Failed));
    Ok(())
}

#[test]
fn a_file_shelf_reads_a_file_again_from_its_front(rt: HostRuntime) -> Result<(), Fail> {
    let alloc = rt.alloc();
    let name = format!(in alloc; "/tmp/ddm_outside_again_{}", std::process::id(rt.process()))?;
    fs::write(&rt, name.as_str(), b"a file")?;
    let mut shelf = FileShelf::new(&rt);
    let mut into = [0u8; 8];
    let first = read_from(&mut shelf, name.as_str(), 0, &mut into);
    let end = read_from(&mut shelf, name.as_str(), 6, &mut into);
    let again = read_from(&mut shelf, name.as_str(), 2, &mut into);
    fs::remove_file(&rt, name.as_str())?;
    assert_eq!(rt; first, Ok(6));
    assert_eq!(rt; end, Ok(0));
    assert_eq!(rt; again, Ok(4));
    assert_eq!(rt; into[..4], b"file"[..]);
    Ok(())
}

#[test]
fn a_file_shelf_reads_a_pipe_once(rt: HostRuntime) -> Result<(), Fail> {
    let (reader, mut writer) = io::pipe(&rt)?;
    let name = format!(in rt.alloc(); "/dev/fd/{}", reader.as_raw_fd())?;
    let mut shelf = FileShelf::new(&rt);
    let mut into = [0u8; 8];
    writer.write_all(b"a pipe's b")?;
    assert_eq!(rt; read_from(&mut shelf, name.as_str(), 0, &mut into), Ok(8));
    assert_eq!(rt; into.as_slice(), b"a pipe's".as_slice());
    writer.write_all(b"ytes")?;
    drop(writer);
    assert_eq!(rt; read_from(&mut shelf, name.as_str(), 8, &mut into), Ok(6));
    assert_eq!(rt; into[..6], b" bytes"[..]);
    assert_eq!(rt; read_from(&mut shelf, name.as_str(), 14, &mut into), Ok(0));
    assert_eq!(rt;
        read_from(&mut shelf, name.as_str(), 0, &mut into),
        Err(Failed)
    );
    assert_eq!(rt;
        read_from(&mut shelf, name.as_str(), 0, &mut into),
        Err(Failed)
    );
    assert_eq!(rt; read_from(&mut shelf, name.as_str(), 14, &mut into), Ok(0));
    Ok(())
}

#[test]
fn a_standard_stream_takes_bytes(rt: HostRuntime) {
    let mut out = StdSink::output(rt.stdout());
    let mut faults_out = StdSink::faults(rt.stderr());
    assert_eq!(rt; write_to(&mut out, b"out\n"), Ok(4));
    assert_eq!(rt; write_to(&mut faults_out, b"faults\n"), Ok(7));
}
