use lz_base::{
    Failed, Files, HostFiles, HostSink, MemFiles, MemSink, Name, OutOfMemory, Partial, ReadEnd,
    Sink, Word, cut, read_file, write_all,
};
use std::alloc::{AllocError, Global};
use std::io::{ErrorKind, Write};
use std::{fs, io};

// The width and the value of a word, another width, whether the word is signed, and its value at that width.
const RESIZED: &[(u32, u128, u32, bool, u128)] = &[
    (8, 0xab, 4, false, 0xb),
    (8, 0xab, 4, true, 0xb),
    (4, 0xb, 4, true, 0xb),
    (4, 0xb, 8, false, 0x0b),
    (4, 0xb, 8, true, 0xfb),
    (4, 0x5, 8, true, 0x05),
    (1, 1, 128, true, u128::MAX),
    (1, 1, 128, false, 1),
    (128, u128::MAX, 1, true, 1),
    (128, u128::MAX, 128, true, u128::MAX),
];

fn is_resized(case: &(u32, u128, u32, bool, u128)) -> bool {
    let (width, value, to, signed, want) = *case;
    if width < 1 || 128 < width || to < 1 || 128 < to {
        return false;
    }
    let word = Word::new(width, cut(value, width));
    word.value == value && word.resize(to, signed) == Word::new(to, cut(want, to))
}

#[test]
fn words_are_cut_and_extended(rt: HostRuntime) {
    for case in RESIZED {
        assert!(rt; is_resized(case), "{case:?}");
    }
}

#[test]
fn bits_count_from_the_least(rt: HostRuntime) {
    let word = Word::new(128, 0x8000_0000_0000_0000_0000_0000_0000_0006);
    assert!(rt; word.bit(127) && word.bit(2) && word.bit(1));
    assert!(rt; !word.bit(126) && !word.bit(3) && !word.bit(0));
}

fn are_ordered(name: &Name, again: &Name, other: &Name) -> bool {
    name == again && name != other && other < name && name <= again
}

fn compares(alloc: Global) -> Result<bool, OutOfMemory> {
    let name = Name::new(alloc, b"_a1$")?;
    let again = name.clone()?;
    let other = Name::new(alloc, b"Z")?;
    Ok(name.bytes() == b"_a1$".as_slice() && are_ordered(&name, &again, &other))
}

#[test]
fn names_are_their_bytes(rt: HostRuntime) {
    assert!(rt; matches!(compares(rt.alloc()), Ok(true)));
}

// A file that holds `abcde` under the name `a`, and an empty one.
fn letters(alloc: Global, fail: &[u64]) -> Result<MemFiles, AllocError> {
    let full = b"abcde".as_slice().to_vec(alloc)?;
    let files = vec![in alloc;
        (String::from_str(alloc, "empty")?, Vec::new(alloc)),
        (String::from_str(alloc, "a")?, full),
    ]?;
    Ok(MemFiles::new(files, fail.to_vec(alloc)?))
}

// A call on files, and what it answers.
#[derive(Clone, Copy)]
enum Call {
    // `a` is opened
    Opens,
    // there is no file `b`
    Misses,
    // how many bytes are read, and the buffer behind it
    Reads(usize, [u8; 3]),
    // a read that fails
    Fails,
}

// Of the calls the fourth is listed as one that fails: number 3.
const CALLS: &[Call] = &[
    Call::Fails,
    Call::Opens,
    Call::Reads(3, *b"abc"),
    Call::Fails,
    Call::Reads(2, *b"dec"),
    Call::Reads(0, *b"dec"),
    Call::Misses,
    Call::Fails,
];

fn is_answered(files: &mut MemFiles, piece: &mut [u8; 3], call: Call) -> bool {
    match call {
        Call::Opens => files.open("a").is_ok(),
        Call::Misses => files.open("b").is_err(),
        Call::Reads(count, bytes) => files.read(piece) == Ok(count) && *piece == bytes,
        Call::Fails => files.read(piece).is_err(),
    }
}

// How many of the calls are answered so, up to the first that is not.
fn answered(alloc: Global) -> Result<usize, AllocError> {
    let mut files = letters(alloc, &[3])?;
    let mut piece = [0u8; 3];
    for (at, call) in CALLS.iter().enumerate() {
        if !is_answered(&mut files, &mut piece, *call) {
            return Ok(at);
        }
    }
    Ok(CALLS.len())
}

#[test]
fn memory_files_read_and_fail(rt: HostRuntime) {
    assert!(rt; answered(rt.alloc()) == Ok(CALLS.len()));
}

// Whether a file that is read whole, up to a limit, holds `abcde`.
fn reads<F: Files>(alloc: Global, files: &mut F, name: &str, limit: u8) -> Result<bool, ReadEnd> {
    let bytes = read_file(alloc, files, name, u64::from(limit))?;
    Ok(bytes.as_slice() == b"abcde".as_slice())
}

fn keeps_limits(alloc: Global) -> Result<bool, AllocError> {
    let mut files = letters(alloc, &[])?;
    let mut keeps = true;
    for limit in [0, 4] {
        keeps &= reads(alloc, &mut files, "a", limit) == Err(ReadEnd::TooLong);
    }
    for limit in [5, 6] {
        keeps &= reads(alloc, &mut files, "a", limit) == Ok(true);
    }
    Ok(keeps)
}

#[test]
fn files_are_read_up_to_the_limit(rt: HostRuntime) {
    assert!(rt; keeps_limits(rt.alloc()) == Ok(true));
}

// Whether a read in which a call fails is no answer, and the next one is.
fn fails_once(alloc: Global, call: u64) -> Result<bool, AllocError> {
    let mut files = letters(alloc, &[call])?;
    let fails = reads(alloc, &mut files, "a", 9) == Err(ReadEnd::Fault);
    Ok(fails && reads(alloc, &mut files, "a", 9) == Ok(true))
}

#[test]
fn a_failed_read_is_not_the_end(rt: HostRuntime) {
    for call in 0..3 {
        assert!(rt;
            fails_once(rt.alloc(), call) == Ok(true),
            "call {call} fails"
        );
    }
}

// Whether a sink of five bytes, which takes two at once, takes `abcde`, and no more.
fn is_filled(sink: &mut MemSink) -> bool {
    sink.write(b"abc") == Ok(2)
        && write_all(sink, b"c").is_ok()
        && write_all(sink, b"defg") == Err(Partial { sent: 2 })
        && sink.bytes() == b"abcde".as_slice()
}

#[test]
fn a_sink_takes_pieces_until_it_is_full(rt: HostRuntime) {
    match MemSink::new(rt.alloc(), 5, 2) {
        Ok(mut sink) => {
            assert!(rt; is_filled(&mut sink));
            assert!(rt; sink.write(b"h") == Err(Failed) && sink.write(b"") == Ok(0));
        }
        Err(_) => assert!(rt; false),
    }
}

const PATH: &str = "lz_base_test";

fn sends<W: Write + Drop>(writer: W) -> bool {
    let mut sink = HostSink::new(writer);
    write_all(&mut sink, b"abc").is_ok() && write_all(&mut sink, b"de").is_ok()
}

#[test]
fn the_system_keeps_what_is_written(rt: HostRuntime) {
    match fs::create(&rt, PATH) {
        Ok(file) => assert!(rt; sends(file)),
        Err(_) => assert!(rt; false),
    }
    let mut files = HostFiles::new(&rt);
    assert!(rt; reads(rt.alloc(), &mut files, PATH, 5) == Ok(true));
    assert!(rt; fs::remove_file(&rt, PATH).is_ok());
    assert!(rt; reads(rt.alloc(), &mut files, PATH, 5) == Err(ReadEnd::Fault));
}

/// A writer whose first calls are interrupted, and which then takes all but `short` bytes of a piece.
#[derive(Drop)]
struct Interrupted {
    calls: u32,
    short: usize,
}

impl Write for Interrupted {
    fn write(&mut self, piece: &[u8]) -> io::Result<usize> {
        if 0 < self.calls {
            self.calls -= 1;
            return Err(io::Error::from(ErrorKind::Interrupted));
        }
        Ok(piece.len().saturating_sub(self.short))
    }

    fn flush(&mut self) -> io::Result<()> {
        Ok(())
    }
}

// What a sink answers to three bytes, over a writer that is interrupted so often and takes so many bytes less.
fn written(calls: u32, short: usize) -> Result<usize, Failed> {
    HostSink::new(Interrupted { calls, short }).write(b"abc")
}

#[test]
fn an_interrupted_write_is_tried_again(rt: HostRuntime) {
    let cases = [
        (0, 0, Ok(3)),
        (0, 1, Ok(2)),
        (0, 3, Err(Failed)),
        (1000, 0, Ok(3)),
        (1001, 0, Err(Failed)),
    ];
    for (calls, short, want) in cases {
        assert!(rt; written(calls, short) == want, "{calls} interruptions");
    }
}
