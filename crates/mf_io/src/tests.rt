use super::{
    Folder, HonestFolder, HonestSink, List, LoadFault, Loaded, MemoryFolder, MemorySink, PutFault,
    RealErr, RealFolder, RealOut, RealSink, Sink, Text, put_all,
};
use std::alloc::Global;
use std::io::Write;
use std::test::Fail;
use std::{fs, io};

// A folder's files: `a` with 5 bytes, `b` with none, and a second `a`.
fn three_files(alloc: Global) -> Result<List<(Text, Text)>, Fail> {
    let mut files = List::new(alloc);
    files.push((
        Text::from_slice(alloc, b"a")?,
        Text::from_slice(alloc, b"first")?,
    ))?;
    files.push((Text::from_slice(alloc, b"b")?, Text::new(alloc)))?;
    files.push((
        Text::from_slice(alloc, b"a")?,
        Text::from_slice(alloc, b"second")?,
    ))?;
    Ok(files)
}

// What a load found, as bytes; `None` where the file is too long.
fn bytes_of(loaded: &Loaded) -> Option<&[u8]> {
    match loaded {
        Loaded::Whole(text) => Some(text.as_slice()),
        Loaded::TooLong => None,
    }
}

#[test]
fn texts_and_lists_grow(rt: HostRuntime) -> Result<(), Fail> {
    let alloc = rt.alloc();
    let mut text = Text::from_slice(alloc, b"plan")?;
    text.extend_from_slice(b"ner")?;
    assert_eq!(rt; text.as_slice(), b"planner".as_slice());
    let mut list = List::new(alloc);
    list.reserve_one()?;
    list.push(text)?;
    assert_eq!(rt; list.len(), 1);
    let mut same = List::from_vec(Vec::new(alloc));
    same.push(Text::from_vec(Vec::from_slice(alloc, b"planner")?))?;
    assert_eq!(rt; list, same);
    assert_eq!(rt; same.into_vec().len(), 1);
    Ok(())
}

#[test]
fn a_folder_in_memory_loads_and_fails_as_listed(rt: HostRuntime) -> Result<(), Fail> {
    let alloc = rt.alloc();
    let mut failing = List::new(alloc);
    failing.push(2)?;
    let mut folder = MemoryFolder::new(alloc, three_files(alloc)?, failing);
    let first = folder.load(alloc, "a", 5)?;
    assert_eq!(rt; bytes_of(&first), Some(b"first".as_slice()));
    let second = folder.load(alloc, "a", 5);
    assert_eq!(rt; second.err(), Some(LoadFault::Failed));
    let third = folder.load(alloc, "a", 4)?;
    assert_eq!(rt; bytes_of(&third), None);
    let fourth = folder.load(alloc, "c", 4);
    assert_eq!(rt; fourth.err(), Some(LoadFault::Failed));
    Ok(())
}

#[test]
fn an_honest_folder_reads_unknown_names_as_empty(rt: HostRuntime) -> Result<(), Fail> {
    let alloc = rt.alloc();
    let mut folder = HonestFolder::new(alloc, three_files(alloc)?);
    let known = folder.load(alloc, "a", 5)?;
    assert_eq!(rt; bytes_of(&known), Some(b"first".as_slice()));
    let unknown = folder.load(alloc, "c", 5)?;
    assert_eq!(rt; bytes_of(&unknown), Some(b"".as_slice()));
    Ok(())
}

#[test]
fn a_sink_in_memory_takes_chunks_until_a_put_fails(rt: HostRuntime) -> Result<(), Fail> {
    let alloc = rt.alloc();
    let mut failing = List::new(alloc);
    failing.push(2)?;
    let mut sink = MemorySink::new(alloc, 5, failing);
    let fault = put_all(alloc, &mut sink, b"(pick ball1 rooma)\n");
    assert_eq!(rt; fault, Err(PutFault::Failed));
    assert_eq!(rt; sink.bytes(), b"(pick".as_slice());
    put_all(alloc, &mut sink, b" ball1 rooma)\n")?;
    assert_eq!(rt; sink.bytes(), b"(pick ball1 rooma)\n".as_slice());
    Ok(())
}

#[test]
fn an_honest_sink_takes_all(rt: HostRuntime) -> Result<(), Fail> {
    let alloc = rt.alloc();
    let mut sink = HonestSink::new(alloc);
    put_all(alloc, &mut sink, b"no plan\n")?;
    assert_eq!(rt; sink.put(alloc, b"; steps 0\n"), Ok(10));
    assert_eq!(rt; sink.bytes(), b"no plan\n; steps 0\n".as_slice());
    Ok(())
}

#[test]
fn a_real_folder_loads_files(rt: HostRuntime) -> Result<(), Fail> {
    let alloc = rt.alloc();
    fs::write(&rt, "loaded.txt", b"(define)".as_slice())?;
    let mut folder = RealFolder::new(alloc, &rt);
    let whole = folder.load(alloc, "loaded.txt", 8)?;
    assert_eq!(rt; bytes_of(&whole), Some(b"(define)".as_slice()));
    let long = folder.load(alloc, "loaded.txt", 7)?;
    assert_eq!(rt; bytes_of(&long), None);
    let missing = folder.load(alloc, "missing.txt", 7);
    assert_eq!(rt; missing.err(), Some(LoadFault::Failed));
    Ok(())
}

// A writer that takes nothing.
#[derive(Drop)]
struct Deaf;

impl Write for Deaf {
    fn write(&mut self, _buf: &[u8]) -> io::Result<usize> {
        Ok(0)
    }

    fn flush(&mut self) -> io::Result<()> {
        Ok(())
    }
}

#[test]
fn real_sinks_put_and_fail(rt: HostRuntime) -> Result<(), Fail> {
    let alloc = rt.alloc();
    let mut out = RealOut::new(rt.stdout());
    put_all(alloc, &mut out, b"out\n")?;
    let mut err = RealErr::new(rt.stderr());
    put_all(alloc, &mut err, b"err\n")?;
    let mut deaf = RealSink::new(Deaf);
    assert_eq!(rt; put_all(alloc, &mut deaf, b"lost"), Err(PutFault::Failed));
    assert_eq!(rt; put_all(alloc, &mut deaf, b""), Ok(()));
    Ok(())
}
