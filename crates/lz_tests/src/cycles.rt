use lz_base::{Fault, Items, OutOfMemory, Rule, Stop, Word};
use std::alloc::Global;
use t_trace::{Stimulus, Trace, print_stimulus, print_trace, read_stimulus, read_trace};

const STIMULUS: &[u8] = b"stim 1\nin 3f 000000000000000000000000000000ab\nend\n";

const TRACE: &[u8] = b"trace 1\nout 3f 000000000000000000000000000000ab\nend\n";

// The words of the one cycle of both texts.
fn words() -> [Word; 2] {
    [Word::new(6, 0x3f), Word::new(128, 0xab)]
}

fn cycles(alloc: Global) -> Result<Items<Items<Word>>, OutOfMemory> {
    let words = Items::from_slice(alloc, &words())?;
    let mut cycles = Items::new(alloc);
    cycles.push(words)?;
    Ok(cycles)
}

// Whether these are the cycles of both texts.
fn are_read(cycles: &[Items<Word>]) -> bool {
    cycles.len() == 1 && cycles[0].as_slice() == words().as_slice()
}

fn prints_stimulus(alloc: Global) -> Result<bool, OutOfMemory> {
    let cycles = cycles(alloc)?;
    let text = print_stimulus(alloc, &Stimulus { cycles })?;
    Ok(text.as_slice() == STIMULUS)
}

fn prints_trace(alloc: Global) -> Result<bool, OutOfMemory> {
    let cycles = cycles(alloc)?;
    let text = print_trace(alloc, &Trace { cycles })?;
    Ok(text.as_slice() == TRACE)
}

fn reads_stimulus(alloc: Global) -> Result<bool, Stop> {
    let stimulus = read_stimulus(alloc, STIMULUS, &[6, 128])?;
    Ok(are_read(stimulus.cycles.as_slice()))
}

fn reads_trace(alloc: Global, text: &[u8]) -> Result<bool, Stop> {
    let trace = read_trace(alloc, text, &[6, 128])?;
    Ok(are_read(trace.cycles.as_slice()))
}

// The calls that no command reaches, and each once on its happy path.
#[test]
fn prints_and_reads_back(rt: HostRuntime) {
    let alloc = rt.alloc();
    assert!(rt; matches!(prints_stimulus(alloc), Ok(true)));
    assert!(rt; matches!(reads_stimulus(alloc), Ok(true)));
    assert!(rt; matches!(prints_trace(alloc), Ok(true)));
    assert!(rt; matches!(reads_trace(alloc, TRACE), Ok(true)));
    let wanted = Fault {
        rule: Rule::T1,
        at: 8,
    };
    assert!(rt; reads_trace(alloc, b"trace 1\nin 3f\nend\n") == Err(Stop::Fault(wanted)));
}
