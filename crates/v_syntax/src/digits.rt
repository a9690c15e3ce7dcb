ghost use Rattle.std.specs.Prelude.{◌≡◌, IfOk, IsTrue};
ghost use Rattle.v_syntax.specs.Numbers.{is_plain, IsBased};

use lz_base::{Items, OutOfMemory};
use std::alloc::Global;
use std::marker::Model;

/// A decimal number without a base, as it is spelled: a digit, then digits and `_` (IEEE Std 1364-2005, 3.5.1).
/// Contracts see it as its bytes.
#[derive(Debug, Drop)]
pub struct Decimal {
    bytes: Items<u8>,
}

impl Model for Decimal {
    ghost use Rattle.std.specs.Prelude.{List, ℕ, IsTrue};
    ghost use Rattle.v_syntax.specs.Numbers.{is_plain};

    ghost Value = { List ℕ };

    ghost view = { λ d. d.bytes };

    ghost invariant = { λ d. IsTrue (is_plain d.bytes) };
}

impl Decimal {
    /// The number of these bytes, which are copied. `OutOfMemory` is the only other answer.
    pub fn new(alloc: Global, bytes: &[u8]) -> Result<Decimal, OutOfMemory>
        requires { IsTrue (is_plain bytes.now) }
        ensures { IfOk result (λ d. d ≡ bytes.now) }
    {
        Ok(Decimal {
            bytes: Items::from_slice(alloc, bytes)?,
        })
    }

    /// The bytes of the number. It takes no memory.
    pub fn bytes(&self) -> &[u8]
        ensures value { result.now ≡ self.now }
        ensures form { IsTrue (is_plain self.now) }
    {
        self.bytes.as_slice()
    }
}

/// A base and its digits, as they are spelled (IEEE Std 1364-2005, 3.5.1): an apostrophe, an `s` for a signed number or
/// none, the letter of the base (`b`, `o`, `d` or `h`), white space or none, and digits of the base, among which `x`,
/// `z` and `?` may stand, and `_` behind the first one. In base 10 only underscores stand behind an `x`, `z` or `?`.
/// Letters stand in either case. Contracts see it as its bytes.
#[derive(Debug, Drop)]
pub struct Based {
    bytes: Items<u8>,
}

impl Model for Based {
    ghost use Rattle.std.specs.Prelude.{List, ℕ};
    ghost use Rattle.v_syntax.specs.Numbers.{IsBased};

    ghost Value = { List ℕ };

    ghost view = { λ b. b.bytes };

    ghost invariant = { λ b. IsBased b.bytes };
}

impl Based {
    /// The base and digits of these bytes, which are copied. `OutOfMemory` is the only other answer.
    pub fn new(alloc: Global, bytes: &[u8]) -> Result<Based, OutOfMemory>
        requires { IsBased bytes.now }
        ensures { IfOk result (λ b. b ≡ bytes.now) }
    {
        Ok(Based {
            bytes: Items::from_slice(alloc, bytes)?,
        })
    }

    /// The bytes of the base and its digits. It takes no memory.
    pub fn bytes(&self) -> &[u8]
        ensures value { result.now ≡ self.now }
        ensures form { IsBased self.now }
    {
        self.bytes.as_slice()
    }
}
