use lz_base::{Fault, Rule, Stop};
use std::alloc::Global;
use v_lexer::lex;
use v_syntax::{Lexeme, Token};

const TEXT: &[u8] =
    b"module t$1(\r\n\tinput\x0cinput_);\nnegedge 8_'sHf_X 1'b \n 1?a 'D?__1 'o78 $signed(<<<<^~";

// Of each token the place, the first letter of its kind, and its bytes where the kind leaves them open.
const WANTED: &[(u64, u8, &[u8])] = &[
    (0, b'k', b""),
    (7, b'i', b"t$1"),
    (10, b'm', b""),
    (14, b'k', b""),
    (20, b'i', b"input_"),
    (26, b'm', b""),
    (27, b'm', b""),
    (29, b'r', b"negedge"),
    (37, b'd', b"8_"),
    (39, b'b', b"'sHf_X"),
    (46, b'd', b"1"),
    (47, b'b', b"'b \n 1?"),
    (54, b'i', b"a"),
    (56, b'b', b"'D?__"),
    (61, b'd', b"1"),
    (63, b'b', b"'o7"),
    (66, b'd', b"8"),
    (68, b'c', b""),
    (75, b'm', b""),
    (76, b'm', b""),
    (79, b'm', b""),
    (80, b'm', b""),
];

fn shown(lexeme: &Lexeme) -> (u8, &[u8]) {
    match lexeme {
        Lexeme::Identifier(name) => (b'i', name.bytes()),
        Lexeme::Keyword(_) => (b'k', b""),
        Lexeme::Reserved(name) => (b'r', name.bytes()),
        Lexeme::Cast(_) => (b'c', b""),
        Lexeme::Decimal(number) => (b'd', number.bytes()),
        Lexeme::Based(number) => (b'b', number.bytes()),
        Lexeme::Mark(_) => (b'm', b""),
    }
}

fn is_wanted(token: &Token, want: &(u64, u8, &[u8])) -> bool {
    let (kind, bytes) = shown(&token.lexeme);
    token.at == want.0 && kind == want.1 && bytes == want.2
}

fn are_wanted(tokens: &[Token]) -> bool {
    let mut are = tokens.len() == WANTED.len();
    for (token, want) in tokens.iter().zip(WANTED) {
        are &= is_wanted(token, want);
    }
    are
}

fn lexes(alloc: Global) -> Result<bool, Stop> {
    let tokens = lex(alloc, TEXT)?;
    Ok(are_wanted(tokens.tokens()) && tokens.end() == 82)
}

#[test]
fn tokens_and_a_fault(rt: HostRuntime) {
    assert!(rt; matches!(lexes(rt.alloc()), Ok(true)));
    let wanted = Fault {
        rule: Rule::E2,
        at: 4,
    };
    match lex(rt.alloc(), b"a$b $c") {
        Ok(_) => assert!(rt; false, "a byte that begins no token"),
        Err(stop) => assert!(rt; stop == Stop::Fault(wanted)),
    }
}
