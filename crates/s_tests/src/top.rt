use g_net::{Leaves, Line, Proposal};
use lz_base::{Fault, Items, MemFiles, MemSink, Num, OutOfMemory, Rule};
use m_mapper::{FixedMapper, Mapper};
use s_cli::{Command, Status, command, run};
use std::alloc::{AllocError, Global};
use std::test::Fail;

const SOURCE: &[u8] =
    b"module t(input clk, input a, output reg q);\nalways @(posedge clk) q <= a ^ q;\nendmodule\n";

const NETLIST: &[u8] =
    b"lutnet 2\nmodel t\nclock clk\ninput a 1\nff 0 4 1\nlut 2 2 3 6\noutput q 3\nend\n";

const OLD: &[u8] =
    b"lutnet 1\nmodel t\nclock clk\ninput a 1\nff 0 4\nlut 2 2 3 6\noutput q 3\nend\n";

const STIMULUS: &[u8] = b"stim 1\nin 1\nin 0\nin 1\nin 1\nend\n";

const NETWORK: &[u8] =
    b"network 2\nmodel u\ninput a 1\ninput b 1\ninput c 1\nand 2 4\nand 8 6\noutput y 10\nend\n";

// What one table of three leaves makes of that network, and what the plain proposal does.
const ONE_TABLE: &[u8] =
    b"lutnet 2\nmodel u\ninput a 1\ninput b 1\ninput c 1\nlut 3 2 3 4 80\noutput y 5\nend\n";

const TWO_TABLES: &[u8] =
    b"lutnet 2\nmodel u\ninput a 1\ninput b 1\ninput c 1\nlut 2 2 3 8\nlut 2 4 5 8\noutput y 6\nend\n";

const NOTHING: &[u8] = b"";

fn word_list(alloc: Global, words: &[&str]) -> Result<Vec<String>, AllocError> {
    let mut list = Vec::new(alloc);
    for word in words {
        list.push(String::from_str(alloc, *word)?)?;
    }
    Ok(list)
}

// A source `v`, netlists `n` and `o` of both formats, a stimulus `s`, a network `k`, and a text `b` that is none of them. The calls of
// these numbers fail.
fn all_files(alloc: Global, fail: &[u64]) -> Result<MemFiles, AllocError> {
    let source = SOURCE.to_vec(alloc)?;
    let netlist = NETLIST.to_vec(alloc)?;
    let old = OLD.to_vec(alloc)?;
    let stimulus = STIMULUS.to_vec(alloc)?;
    let network = NETWORK.to_vec(alloc)?;
    let other = b"module".as_slice().to_vec(alloc)?;
    let files = vec![in alloc;
        (String::from_str(alloc, "v")?, source),
        (String::from_str(alloc, "n")?, netlist),
        (String::from_str(alloc, "o")?, old),
        (String::from_str(alloc, "s")?, stimulus),
        (String::from_str(alloc, "k")?, network),
        (String::from_str(alloc, "b")?, other),
    ]?;
    Ok(MemFiles::new(files, fail.to_vec(alloc)?))
}

// A mapper whose answer has this one line.
fn fixed(alloc: Global, root: Num, leaves: &[Num], table: u64) -> Result<FixedMapper, OutOfMemory> {
    let leaves = Leaves::from_slice(alloc, leaves)?;
    let mut lines = Items::new(alloc);
    lines.push(Line {
        root,
        leaves,
        table,
    })?;
    Ok(FixedMapper::new(alloc, Proposal { lines }))
}

#[test]
fn each_form_has_its_answer(rt: HostRuntime) -> Result<(), Fail> {
    let refused = |rule: Rule, at: u64| Status::Refused(Fault { rule, at });
    let cases: [(&[&str], Status, &[u8], &[u8]); 13] = [
        (&["synth", "v"], Status::Ok, NETLIST, NOTHING),
        (
            &["simn", "n", "s"],
            Status::Ok,
            b"trace 1\nout 0\nout 1\nout 1\nout 0\nend\n",
            NOTHING,
        ),
        (
            &["lanes", "n", "s", "2"],
            Status::Ok,
            b"trace 1\nout 0\nout 0\nout 1\nout 0\nend\n",
            NOTHING,
        ),
        (&["upgrade", "o"], Status::Ok, NETLIST, NOTHING),
        (&["map", "k"], Status::Ok, ONE_TABLE, NOTHING),
        (
            &["map", "k", "b"],
            Status::Ok,
            TWO_TABLES,
            b"note: proposal unreadable\n",
        ),
        (
            &["map", "b"],
            refused(Rule::G1, 0),
            NOTHING,
            b"error: G1 at 0\n",
        ),
        (
            &["synth", "b"],
            refused(Rule::E3, 6),
            NOTHING,
            b"error: E3 at 6\n",
        ),
        (
            &["simn", "o", "b"],
            refused(Rule::N1, 7),
            NOTHING,
            b"error: N1 at 7\n",
        ),
        (
            &["lanes", "n", "b", "64"],
            refused(Rule::T1, 0),
            NOTHING,
            b"error: T1 at 0\n",
        ),
        // Every file is read before one is judged.
        (
            &["simn", "b", "missing"],
            Status::ReadFault,
            NOTHING,
            b"error: read\n",
        ),
        (
            &["lanes", "n", "s", "65"],
            Status::Usage,
            NOTHING,
            b"error: usage\n",
        ),
        (&["Synth", "v"], Status::Usage, NOTHING, b"error: usage\n"),
    ];
    let mapper: Box<dyn Mapper> = Box::new(rt.alloc(), fixed(rt.alloc(), 5, &[1, 2, 3], 0x80)?)?;
    for (words, status, output, errors) in cases {
        let words = word_list(rt.alloc(), words)?;
        let mut files = all_files(rt.alloc(), &[])?;
        let mut out = MemSink::new(rt.alloc(), 1000, 7)?;
        let mut err = MemSink::new(rt.alloc(), 100, 100)?;
        let answer = run(
            rt.alloc(),
            words.as_slice(),
            &mut files,
            &mut out,
            &mut err,
            &mapper,
        );
        assert_eq!(rt; answer, status);
        assert_eq!(rt; out.bytes(), output);
        assert_eq!(rt; err.bytes(), errors);
    }
    let words = word_list(rt.alloc(), &["lanes", "n", "s", "07"])?;
    assert_eq!(rt;
        command(words.as_slice()),
        Some(Command::Lanes { count: 7 })
    );
    Ok(())
}

// Each call on the files fails in turn, and then none; the good run makes so many.
#[test]
fn a_failed_call_on_the_files_is_a_read_fault(rt: HostRuntime) -> Result<(), Fail> {
    let words = word_list(rt.alloc(), &["simn", "n", "s"])?;
    let mapper: Box<dyn Mapper> = Box::new(rt.alloc(), fixed(rt.alloc(), 0, &[], 0)?)?;
    for call in 0..7 {
        let mut files = all_files(rt.alloc(), &[call])?;
        let mut out = MemSink::new(rt.alloc(), 1000, 1000)?;
        let mut err = MemSink::new(rt.alloc(), 0, 1)?;
        let answer = run(
            rt.alloc(),
            words.as_slice(),
            &mut files,
            &mut out,
            &mut err,
            &mapper,
        );
        let good = call == 6;
        assert_eq!(rt;
            answer.code(),
            if good { 0 } else { 3 },
            "call {call} fails"
        );
        assert_eq!(rt; out.bytes().is_empty(), !good);
    }
    Ok(())
}

// With room for less than the whole output, a front of it is written.
#[test]
fn a_full_sink_holds_a_front(rt: HostRuntime) -> Result<(), Fail> {
    let words = word_list(rt.alloc(), &["synth", "v"])?;
    let mapper: Box<dyn Mapper> = Box::new(rt.alloc(), fixed(rt.alloc(), 0, &[], 0)?)?;
    for room in 0..74 {
        let mut files = all_files(rt.alloc(), &[])?;
        let mut out = MemSink::new(rt.alloc(), room, 1)?;
        let mut err = MemSink::new(rt.alloc(), 5, 100)?;
        let answer = run(
            rt.alloc(),
            words.as_slice(),
            &mut files,
            &mut out,
            &mut err,
            &mapper,
        );
        if room == 73 {
            assert_eq!(rt; answer, Status::Ok);
        } else {
            assert_eq!(rt; (answer, answer.code()), (Status::WriteFault, 4));
            assert_eq!(rt; err.bytes(), b"error".as_slice());
        }
        assert_eq!(rt; out.bytes(), &NETLIST[..room]);
    }
    Ok(())
}

// The netlist of a good answer, and of the plain proposal where the answer is a bad or an absurd one; with its note, also
// where the output finds no room.
#[test]
fn no_answer_of_a_mapper_is_refused(rt: HostRuntime) -> Result<(), Fail> {
    let cases: [(Num, &[Num], u64, &[u8], &[u8], &[u8]); 3] = [
        (5, &[1, 2, 3], 0x80, ONE_TABLE, NOTHING, b"error: write\n"),
        (
            5,
            &[1, 2, 3],
            0x81,
            TWO_TABLES,
            b"note: proposal refused V4 at 1\n",
            b"note: proposal refused V4 at 1\nerror: write\n",
        ),
        (
            Num::MAX,
            &[7, 0, 7],
            u64::MAX,
            TWO_TABLES,
            b"note: proposal refused V1 at 1\n",
            b"note: proposal refused V1 at 1\nerror: write\n",
        ),
    ];
    let words = word_list(rt.alloc(), &["map", "k"])?;
    for (root, leaves, table, output, note, errors) in cases {
        let mapper: Box<dyn Mapper> = Box::new(
            rt.alloc(),
            fixed(rt.alloc(), root, leaves, table)?,
        )?;
        for (room, status, errors) in [(1000, Status::Ok, note), (6, Status::WriteFault, errors)] {
            let mut files = all_files(rt.alloc(), &[])?;
            let mut out = MemSink::new(rt.alloc(), room, 4)?;
            let mut err = MemSink::new(rt.alloc(), 100, 100)?;
            let answer = run(
                rt.alloc(),
                words.as_slice(),
                &mut files,
                &mut out,
                &mut err,
                &mapper,
            );
            assert_eq!(rt; answer, status);
            assert_eq!(rt; err.bytes(), errors);
            assert!(rt; output.starts_with(out.bytes()));
            assert_eq!(rt; out.bytes().len(), room.min(output.len()));
        }
    }
    Ok(())
}
