ghost use Rattle.std.specs.Prelude.{◌≡◌, ◌<◌, ◌^◌, ◌&&◌, not, List, IfSome};
ghost use Rattle.v_syntax.specs.declared.expr.Expr.TheVariants as expr;
ghost use Rattle.v_meaning.specs.declared.names.Entry.{Entry};
ghost use Rattle.v_meaning.specs.Literals.{digit_in, is_x, is_z, is_wrong_number};
ghost use Rattle.v_meaning.specs.Proper.{is_proper, is_unsized_number};
ghost use Rattle.v_meaning.specs.Expressions.{number_by_itself};
ghost use Rattle.v_constants.specs.Constants.{constant_sense};
ghost use Rattle.v_constants.specs.Verdicts.{Opens, parameter_value};
ghost use Rattle.v_names.specs.Words.{FitsKind};

use crate::body::Open;
use crate::miss::Miss;
use crate::operators::leaf;
use v_meaning::Kind;
use v_names::Names;
use v_numbers::{has_impedance, has_unknown, is_wrong, literal, value_with};
use v_syntax::{Expr, Ident, Number, Spelling};

/// A number (IEEE Std 1364-2005, 3.5.1), which is constant where it has its form and no x or z digits.
pub fn number(n: &Number) -> Result<Open, Miss>
    ensures { (names : List Entry) → Opens (is_proper names (expr.Number n.now)) (constant_sense names (expr.Number n.now)) result }
{
    if is_constant(&n.spelling) {
        let l = literal(&n.spelling);
        Ok(leaf(l.width, l.signed, value_with(&l, 0)))
    } else {
        Err(Miss::Improper)
    }
}

// Whether a number has its form and no x or z digits.
fn is_constant(spelling: &Spelling) -> bool
    ensures { result ≡ (not (digit_in is_x spelling.now) && not (digit_in is_z spelling.now) && not (is_wrong_number spelling.now)) }
{
    !has_unknown(spelling) && !has_impedance(spelling) && !is_wrong(spelling)
}

/// A name, which is constant where it is a parameter's (4.10).
pub fn name(names: &Names, ident: &Ident) -> Result<Open, Miss>
    ensures { Opens (is_proper names.now (expr.Name ident.now)) (constant_sense names.now (expr.Name ident.now)) result }
{
    let known = names.known(&ident.name);
    match parameter(known.kind, known.width) {
        Some(value) => Ok(leaf(known.width, known.signed, value)),
        None => Err(Miss::Improper),
    }
}

// The value of a parameter, which keeps to its width.
fn parameter(kind: Kind, width: u32) -> Option<u128>
    requires { FitsKind width kind }
    ensures value { result ≡ parameter_value kind }
    ensures fits { IfSome result (λ value. value < 2 ^ width) }
{
    match kind {
        Kind::Parameter(value) => Some(value),
        _ => None,
    }
}

/// Whether an expression is a number without a size and nothing else.
pub fn is_unsized(x: &Expr) -> bool
    ensures { result ≡ is_unsized_number (number_by_itself x.now) }
{
    match x {
        Expr::Number(n) => v_numbers::is_unsized(&n.spelling),
        _ => false,
    }
}
