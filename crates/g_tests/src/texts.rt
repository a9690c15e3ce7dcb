use g_text::{ProposalEnd, print, print_proposal, read, read_proposal};
use lz_base::{Fault, OutOfMemory, Rule, Stop, TEXT_LIMIT};
use std::alloc::Global;

const REGISTER: &[u8] =
    b"network 2\nmodel t\nclock clk\ninput a 1\nff 0 6 1\nxor 2 4\noutput q 4\nend\n";

// A carry, and two equal gates.
const ADDER: &[u8] =
    b"network 2\nmodel s\ninput a 2\ninput b 2\ncarry 2 6 0\ncarry 4 8 13\nand 2 4\nand 2 4\noutput y 10 14 16 1\noutput z 19\nend\n";

const REFUSED: &[(&[u8], Rule, u64)] = &[
    (b"network 1\nmodel t\nend\n", Rule::G1, 8),
    (
        b"network 2\nmodel t\nclock clk\ninput a 1\nff 0 6 1\nxor 2 04\noutput q 4\nend\n",
        Rule::G1,
        54,
    ),
    (
        b"network 2\nmodel t\nclock clk\ninput a 1\nff 0 6\nxor 2 4\noutput q 4\nend\n",
        Rule::G1,
        44,
    ),
    (
        b"network 2\nmodel t\nclock clk\ninput a 1\nff 0 6 1\nlut 0 1\noutput q 4\nend\n",
        Rule::G1,
        47,
    ),
    (
        b"network 2\nmodel t\nclock clk\ninput a 1\nff 0 6 1\nxor 2 4\noutput q 4\nend",
        Rule::G1,
        69,
    ),
    (
        b"network 2\nmodel t\nclock clk\ninput a 1\nff 0 6 1\nxor 2 6\noutput q 4\nend\n",
        Rule::G2,
        53,
    ),
    (
        b"network 2\nmodel t\nclock clk\ninput a 1\nff 0 6 1\nxor 2 4\noutput a 4\nend\n",
        Rule::G2,
        62,
    ),
];

// Whether a text is read and printed again as it was.
fn prints_again(alloc: Global, text: &[u8]) -> Result<bool, Stop> {
    if TEXT_LIMIT < text.len() as u64 {
        return Ok(false);
    }
    let network = read(alloc, text)?;
    Ok(is_printed(print(alloc, &network), text))
}

fn is_printed(printed: Result<Vec<u8>, OutOfMemory>, text: &[u8]) -> bool {
    match printed {
        Ok(again) => again.as_slice() == text,
        Err(_) => false,
    }
}

#[test]
fn prints_what_it_reads(rt: HostRuntime) {
    assert!(rt; prints_again(rt.alloc(), REGISTER) == Ok(true));
    assert!(rt; prints_again(rt.alloc(), ADDER) == Ok(true));
    for (text, rule, at) in REFUSED {
        let wanted = Fault {
            rule: *rule,
            at: *at,
        };
        assert!(rt;
            prints_again(rt.alloc(), text) == Err(Stop::Fault(wanted)),
            "{text:?}"
        );
    }
}

const LUTS: &[u8] =
    b"proposal 1\nlut 3 2 1 2 6\nlut 9 6 1 2 3 4 5 6 80fe00000000000f\nlut 4 0 1\nend\n";

const UNREADABLE: &[(&[u8], u64)] = &[
    (b"proposal 1\nlut 9 7 1 2 3 4 5 6 7 0\nend\n", 17),
    (b"proposal 1\nlut 3 2 1 2 06\nend\n", 24),
    (b"proposal 1\nlut 03 2 1 2 6\nend\n", 16),
    (b"proposal 1\nlut 3 2 1 2 6\nend", 28),
];

fn prints_proposal_again(alloc: Global, text: &[u8]) -> Result<bool, ProposalEnd> {
    if TEXT_LIMIT < text.len() as u64 {
        return Ok(false);
    }
    let proposal = read_proposal(alloc, text)?;
    Ok(is_printed(print_proposal(alloc, &proposal), text))
}

#[test]
fn reads_proposals(rt: HostRuntime) {
    assert!(rt; prints_proposal_again(rt.alloc(), LUTS) == Ok(true));
    for (text, at) in UNREADABLE {
        let wanted = ProposalEnd::Unreadable { at: *at };
        assert!(rt;
            prints_proposal_again(rt.alloc(), text) == Err(wanted),
            "{text:?}"
        );
    }
}
