ghost use Rattle.std.specs.Prelude.{◌≡◌, ◌≤◌, ◌<◌, ◌^◌, List, []};
ghost use Rattle.v_syntax.specs.declared.expr.Expr.{Expr};
ghost use Rattle.v_meaning.specs.declared.names.Entry.{Entry};
ghost use Rattle.v_meaning.specs.Views.{no_view};
ghost use Rattle.v_meaning.specs.Senses.{assigned, constant};
ghost use Rattle.v_meaning.specs.Expressions.{sense_of};
ghost use Rattle.v_meaning.specs.Declarations.{constant_value};
ghost use Rattle.v_meaning.specs.Proper.{width_of};
ghost use Rattle.v_constants.specs.Bodies.{sense_in, IsOpen};
ghost use Rattle.v_constants.specs.Constants.{IsConstant};

use crate::body::Open;
use crate::operators::{at, own};
use lz_base::cut;
use std::marker::Model;
use v_words::is_negative;

/// The constant that a constant expression stands for.
#[derive(Debug, Drop)]
pub struct Constant {
    value: Open,
}

impl Model for Constant {
    ghost use Rattle.std.specs.Coded.{codes};
    ghost use Rattle.v_constants.specs.contracts.body.Body as e;
    ghost use Rattle.v_constants.specs.declared.body.Open.{Open};
    ghost use Rattle.v_constants.specs.Bodies.{IsOpen};

    ghost Value = { Open };

    ghost coded = { Prim.hlevel (codes, e.the_row.coded) };

    ghost view = { λ c. c.value };

    ghost invariant = { λ c. IsOpen c.value };
}

impl Constant {
    // The constant of an open one.
    pub(crate) fn new(value: Open) -> Constant
        requires { IsOpen value }
        ensures { result ≡ value }
    {
        Constant { value }
    }

    /// How many bits it has by itself (IEEE Std 1364-2005, 5.4.1), from 1 to 128.
    pub fn width(&self) -> u32
        ensures value { (names : List Entry) (x : Expr) → IsConstant names x self.now → result ≡ width_of names x }
        ensures has_bit { 1 ≤ result }
        ensures within { result ≤ 128 }
    {
        self.value.width
    }

    /// Whether it is signed by itself (5.5.1).
    pub fn is_signed(&self) -> bool
        ensures { (names : List Entry) (x : Expr) → IsConstant names x self.now → result ≡ (sense_of names [] x).signed }
    {
        self.value.signed
    }

    /// The number that it stands for as an index, a bound or a count; None where it is negative.
    pub fn number(&self) -> Option<u128>
        ensures { (names : List Entry) (x : Expr) → IsConstant names x self.now → result ≡ constant_value names x }
    {
        number_of(&self.value)
    }

    /// What an assignment to so many bits gives (9.2): its value at the greater of both widths, cut to these bits.
    pub fn assigned(&self, width: u32) -> u128
        requires has_bit { 1 ≤ width }
        requires within { width ≤ 128 }
        ensures value { (names : List Entry) (x : Expr) → IsConstant names x self.now → result ≡ assigned width (sense_of names [] x) no_view }
        ensures below { result < 2 ^ width }
    {
        assigned_to(&self.value, width)
    }
}

/// The number that a constant stands for; None where it is negative.
pub fn number_of(x: &Open) -> Option<u128>
    requires { IsOpen x.now }
    ensures { result ≡ constant (sense_in x.now) }
{
    let value = own(x);
    if x.signed && is_negative(x.width, value) {
        None
    } else {
        Some(value)
    }
}

// What an assignment to so many bits gives.
fn assigned_to(x: &Open, width: u32) -> u128
    requires kept { IsOpen x.now }
    requires has_bit { 1 ≤ width }
    requires within { width ≤ 128 }
    ensures value { result ≡ assigned width (sense_in x.now) no_view }
    ensures below { result < 2 ^ width }
{
    cut(at(x, width.max(x.width), x.signed), width)
}
