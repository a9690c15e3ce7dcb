ghost use Rattle.std.specs.Prelude.{◌≡◌, ◌≤◌};
ghost use Rattle.lz_base.specs.Limits.{source_limit};
ghost use Rattle.v_syntax.specs.Tokens.{AreTokens};

use crate::Token;
use lz_base::Items;
use std::marker::Model;

/// The tokens of a source file in their order, and the file's end.
///
/// Each token's bytes have the form of its kind. The places strictly ascend and lie below the end, which is at
/// most `SOURCE_LIMIT`.
#[derive(Debug, Drop)]
pub struct Tokens {
    tokens: Items<Token>,
    end: u64,
}

impl Model for Tokens {
    ghost use Rattle.v_syntax.specs.Tokens.{TokensValue, IsTokens};

    ghost Value = { TokensValue };

    ghost view = { λ t. record { tokens = t.tokens; end = t.end } };

    ghost invariant = { λ t. IsTokens (record { tokens = t.tokens; end = t.end }) };
}

impl Tokens {
    /// The tokens of a file that ends at `end`, a number of bytes.
    pub fn new(tokens: Items<Token>, end: u64) -> Tokens
        requires tokens { AreTokens 0 end tokens }
        requires end { end ≤ source_limit }
        ensures { result ≡ record { tokens = tokens; end = end } }
    {
        Tokens { tokens, end }
    }

    /// The tokens in the file's order.
    pub fn tokens(&self) -> &[Token]
        ensures value { result.now ≡ self.now.tokens }
        ensures are { AreTokens 0 self.now.end self.now.tokens }
    {
        self.tokens.as_slice()
    }

    /// The file's end: its number of bytes.
    pub fn end(&self) -> u64
        ensures value { result ≡ self.now.end }
        ensures small { self.now.end ≤ source_limit }
    {
        self.end
    }
}
