//! Files and sinks: in memory, call by call, and of the system.

use file_ports::{
    Failed, Files, Held, HostFiles, HostOut, MemFiles, MemSink, ReadErr, Sink, names_differ,
};
use std::alloc::{AllocError, Global};
use std::io::{BufWriter, Write};
use std::test::Fail;
use std::{fs, io};

fn held(
    alloc: Global,
    name: &str,
    bytes: Option<&[u8]>,
    room: Option<u64>,
) -> Result<Held, AllocError> {
    let bytes = match bytes {
        Some(bytes) => Some(bytes.to_vec(alloc)?),
        None => None,
    };
    Ok(Held {
        name: String::from_str(alloc, name)?,
        bytes,
        room,
    })
}

// A read of a name under a limit with what it gives, or a write with whether it is done and the bytes that are told then.
#[derive(Clone, Copy)]
enum Call<'a> {
    Read(&'a str, u64, Result<&'a [u8], ReadErr>),
    Write(&'a str, &'a [u8], bool, Option<&'a [u8]>),
}

// `a` holds `abc` and has room for four bytes, `b` is missing and has room for two, `c` may not be written, and there is no `d`.
// The third read and the second write are to fail.
const CALLS: [Call<'static>; 13] = [
    Call::Read("a", 3, Ok(b"abc")),
    Call::Read("a", 2, Err(ReadErr::TooLong)),
    Call::Read("a", 9, Err(ReadErr::Failed)),
    Call::Read("b", 9, Err(ReadErr::Failed)),
    Call::Read("d", 9, Err(ReadErr::Failed)),
    Call::Write("a", b"1234", true, Some(b"1234")),
    Call::Read("a", 9, Ok(b"1234")),
    Call::Write("a", b"x", false, None),
    Call::Write("b", b"xyz", false, None),
    Call::Write("c", b"x", false, None),
    Call::Write("d", b"x", false, None),
    Call::Write("b", b"xy", true, Some(b"xy")),
    Call::Read("b", 2, Ok(b"xy")),
];

#[test]
fn files_in_memory(rt: HostRuntime) -> Result<(), Fail> {
    let alloc = rt.alloc();
    let held = [
        held(alloc, "a", Some(b"abc"), Some(4))?,
        held(alloc, "b", None, Some(2))?,
        held(alloc, "c", Some(b"xyz"), None)?,
    ];
    assert!(rt; names_differ(&held));
    let mut files = MemFiles::new(alloc, &held, &[3], &[2])?;
    for (index, call) in CALLS.iter().enumerate() {
        match *call {
            Call::Read(name, limit, want) => {
                let got = files.read(alloc, name, limit);
                let bytes = match &got {
                    Ok(bytes) => Ok(bytes.as_slice()),
                    Err(reason) => Err(*reason),
                };
                assert_eq!(rt; bytes, want, "at call {index}");
            }
            Call::Write(name, bytes, done, told) => {
                assert_eq!(rt; files.write(name, bytes).is_ok(), done, "at call {index}");
                assert_eq!(rt; files.bytes(name), told, "at call {index}");
            }
        }
    }
    Ok(())
}

// Five bytes have room, and the second put is to fail.
const PUTS: [(&[u8], bool, &[u8]); 4] = [
    (b"abc", true, b"abc"),
    (b"d", false, b"abc"),
    (b"def", false, b"abc"),
    (b"de", true, b"abcde"),
];

#[test]
fn sink_in_memory(rt: HostRuntime) -> Result<(), Fail> {
    let mut sink = MemSink::new(rt.alloc(), 5, &[2])?;
    for (piece, done, taken) in PUTS {
        assert_eq!(rt; sink.put(piece).is_ok(), done);
        assert_eq!(rt; sink.taken(), taken);
    }
    Ok(())
}

const PATH: &str = "file_ports_test.txt";

#[test]
fn files_of_the_system(rt: HostRuntime) -> Result<(), Fail> {
    let alloc = rt.alloc();
    let mut files = HostFiles::new(&rt);
    assert!(rt; files.write(PATH, b"one two").is_ok());
    assert!(rt; files.write(PATH, b"abc").is_ok());
    assert!(rt; matches!(fs::exists(&rt, "file_ports_test.txt.new0"), Ok(false)));
    let bytes = files.read(alloc, PATH, 3);
    assert!(rt; matches!(&bytes, Ok(bytes) if bytes.as_slice() == b"abc".as_slice()));
    assert_eq!(rt; files.read(alloc, PATH, 2).err(), Some(ReadErr::TooLong));
    fs::remove_file(&rt, PATH)?;
    assert_eq!(rt; files.read(alloc, PATH, 3).err(), Some(ReadErr::Failed));
    assert_eq!(rt;
        files.write("file_ports_no_such_folder/x", b"abc"),
        Err(Failed)
    );
    Ok(())
}

// Takes so many bytes and then nothing.
#[derive(Drop)]
struct Full {
    left: usize,
}

impl Write for Full {
    fn write(&mut self, bytes: &[u8]) -> io::Result<usize> {
        let taken = bytes.len().min(self.left);
        self.left -= taken;
        Ok(taken)
    }

    fn flush(&mut self) -> io::Result<()> {
        Ok(())
    }
}

#[test]
fn output_that_takes_nothing_more(rt: HostRuntime) {
    let mut out = HostOut::new(Full { left: 3 });
    assert!(rt; out.put(b"abc").is_ok());
    assert!(rt; out.put(b"").is_ok());
    assert_eq!(rt; out.put(b"d"), Err(Failed));
}

const FLUSHED: &str = "file_ports_flushed.txt";

// What was put stands in the file while the sink over it is still there: the writer would else keep so few bytes to itself.
#[test]
fn output_is_flushed(rt: HostRuntime) -> Result<(), Fail> {
    let alloc = rt.alloc();
    let mut out = HostOut::new(BufWriter::new(alloc, fs::create(&rt, FLUSHED)?)?);
    let mut files = HostFiles::new(&rt);
    for (piece, all) in [(b"abc".as_slice(), b"abc".as_slice()), (b"de", b"abcde")] {
        assert!(rt; out.put(piece).is_ok());
        let bytes = files.read(alloc, FLUSHED, 9);
        assert!(rt; matches!(&bytes, Ok(bytes) if bytes.as_slice() == all));
    }
    Ok(fs::remove_file(&rt, FLUSHED)?)
}
