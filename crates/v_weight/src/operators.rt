ghost use Rattle.std.specs.Prelude.{◌≡◌, ℕ, ◌*◌, ◌&&◌, true, false, if◌then◌else◌};
ghost use Rattle.v_meaning.specs.Senses.{Shared, Compared, Shifted, Logical, class_of, is_through};
ghost use Rattle.v_meaning.specs.Weights.{Weighed, shared_weight};
ghost use Rattle.v_weight.specs.Saturated.{Same};
ghost use Rattle.v_weight.specs.Polynomials.{Gives};
ghost use Rattle.v_weight.specs.Counts.{Stands, Operates, Prefixes, weighed_choice, as_many, recast};

use crate::counting::Counted;
use crate::polynomial::Polynomial;
use crate::saturated::{greater, plus, times};
use v_constants::{Class, class_of, is_through};
use v_syntax::{BinaryOperator, UnaryOperator};

// What an operator weighs whose operands take the final width.
fn shared_weight(operator: BinaryOperator) -> Polynomial
    ensures { Gives result (shared_weight operator) }
{
    match operator {
        BinaryOperator::Multiply => Polynomial::squared(),
        _ => Polynomial::width(),
    }
}

// Whether both of two operands are constant.
pub(crate) fn both(x: bool, y: bool) -> bool
    ensures { result ≡ (x && y) }
{
    x && y
}

// Both operands take the final width.
pub(crate) fn shared(operator: BinaryOperator, x: Counted, y: Counted) -> Counted
    ensures stands { Operates Shared operator x y result }
    ensures constant { result.is_constant ≡ (x.is_constant && y.is_constant) }
{
    Counted {
        width: greater(x.width, y.width),
        is_constant: both(x.is_constant, y.is_constant),
        weight: shared_weight(operator).plus(x.weight).plus(y.weight),
    }
}

// Both operands have the greater of their widths.
fn compared(operator: BinaryOperator, x: Counted, y: Counted) -> Counted
    ensures stands { Operates Compared operator x y result }
    ensures constant { result.is_constant ≡ (x.is_constant && y.is_constant) }
{
    let width = greater(x.width, y.width);
    let left = x.weight.at(width);
    let right = y.weight.at(width);
    Counted::itself(
        1,
        both(x.is_constant, y.is_constant),
        plus(plus(width, left), right),
    )
}

// What an amount makes a shift weigh: nothing where it is constant, else its width for each bit.
fn amount_weight(is_constant: bool, width: u64) -> Polynomial
    ensures { (n : ℕ) → Same width n → Gives result (λ width. if is_constant then 0 else width * n) }
{
    if is_constant {
        Polynomial::constant(0)
    } else {
        Polynomial::per_bit(width)
    }
}

// The left operand takes the final width, and the right one determines itself.
fn shifted(operator: BinaryOperator, x: Counted, y: Counted) -> Counted
    ensures stands { Operates Shifted operator x y result }
    ensures constant { result.is_constant ≡ (x.is_constant && y.is_constant) }
{
    let amount = amount_weight(y.is_constant, y.width);
    let by = Polynomial::constant(y.own());
    Counted {
        width: x.width,
        is_constant: both(x.is_constant, y.is_constant),
        weight: amount.plus(x.weight).plus(by),
    }
}

// Both operands determine themselves.
fn logical(operator: BinaryOperator, x: Counted, y: Counted) -> Counted
    ensures stands { Operates Logical operator x y result }
    ensures constant { result.is_constant ≡ (x.is_constant && y.is_constant) }
{
    let widths = plus(x.width, y.width);
    let left = x.own();
    let right = y.own();
    Counted::itself(
        1,
        both(x.is_constant, y.is_constant),
        plus(plus(widths, left), right),
    )
}

// An operator between two operands (IEEE Std 1364-2005, 5.1).
pub(crate) fn operated(operator: BinaryOperator, x: Counted, y: Counted) -> Counted
    ensures stands { Operates (class_of operator) operator x y result }
    ensures constant { result.is_constant ≡ (x.is_constant && y.is_constant) }
{
    match class_of(operator) {
        Class::Shared => shared(operator, x, y),
        Class::Compared => compared(operator, x, y),
        Class::Shifted => shifted(operator, x, y),
        Class::Logical => logical(operator, x, y),
    }
}

// An operator whose operand takes the final width.
fn through(x: Counted) -> Counted
    ensures stands { Prefixes true x result }
    ensures constant { result.is_constant ≡ x.is_constant }
{
    Counted {
        width: x.width,
        is_constant: x.is_constant,
        weight: Polynomial::width().plus(x.weight),
    }
}

// An operator whose operand determines itself.
fn reduced(x: Counted) -> Counted
    ensures stands { Prefixes false x result }
    ensures constant { result.is_constant ≡ x.is_constant }
{
    Counted::itself(1, x.is_constant, plus(x.width, x.own()))
}

// An operator before an operand.
pub(crate) fn prefixed(operator: UnaryOperator, x: Counted) -> Counted
    ensures stands { Prefixes (is_through operator) x result }
    ensures constant { result.is_constant ≡ x.is_constant }
{
    if is_through(operator) {
        through(x)
    } else {
        reduced(x)
    }
}

// `c ? x : y` (5.1.13)
pub(crate) fn chosen(c: Counted, x: Counted, y: Counted) -> Counted
    ensures stands { (r s t : Weighed) → Stands c r → Stands x s → Stands y t → Stands result (weighed_choice r s t) }
    ensures constant { result.is_constant ≡ (c.is_constant && x.is_constant && y.is_constant) }
{
    let width = Polynomial::constant(c.width);
    let condition = Polynomial::constant(c.own());
    let choice = Polynomial::width().plus(width).plus(condition);
    Counted {
        width: greater(x.width, y.width),
        is_constant: both(both(c.is_constant, x.is_constant), y.is_constant),
        weight: choice.plus(x.weight).plus(y.weight),
    }
}

// So many copies side by side, of which the operands count once (5.1.14).
pub(crate) fn replicated(count: u64, x: Counted) -> Counted
    ensures stands { (n : ℕ) (s : Weighed) → Same count n → Stands x s → Stands result (as_many n s) }
    ensures constant { result.is_constant ≡ x.is_constant }
{
    Counted {
        width: times(count, x.width),
        is_constant: x.is_constant,
        weight: x.weight,
    }
}

// `$signed` and `$unsigned` (5.5)
pub(crate) fn recast(x: Counted) -> Counted
    ensures stands { (s : Weighed) → Stands x s → Stands result (recast s) }
    ensures constant { result.is_constant ≡ x.is_constant }
{
    Counted::itself(x.width, x.is_constant, x.own())
}
