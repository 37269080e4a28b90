//! Operations on numbers that may be poison.

ghost use Rattle.std.specs.Prelude.{◌≡◌, ℕ};
ghost use Rattle.ir_tree.specs.declared.module.Flags.{Flags};
ghost use Rattle.ir_model.specs.Values as model;
ghost use Rattle.ir_model.specs.Integers.{binary};
ghost use Rattle.ir_model.specs.Operations.{resized, chosen, frozen};
ghost use Rattle.ir_arith.specs.Widths.{IsWidth};
ghost use Rattle.mem_cells.specs.Shapes.{value_shape};
ghost use Rattle.ir_compute.specs.Operands.{answer_shape};
ghost use Rattle.ir_compute.specs.Fitting.{IsInteger};

use ir_arith::Computed;
use ir_model::Why;
use ir_tree::module::{Bin, Conv, Flags};
use mem_cells::Value;

/// Computes a binary operation.
///
/// # Errors
/// `Divide` where a division has no meaning, `Poison` where its divisor is poison.
pub fn binary(operation: Bin, flags: Flags, width: u8, x: Value, y: Value) -> Result<Value, Why>
    requires width { IsWidth width }
    requires left { IsInteger width (value_shape x) }
    requires right { IsInteger width (value_shape y) }
    ensures { answer_shape result ≡ binary operation flags width (value_shape x) (value_shape y) }
{
    let Value::Integer(_, b) = y else {
        return binary_by_poison(operation);
    };
    let Value::Integer(_, a) = x else {
        return binary_of_poison(operation, b);
    };
    match ir_arith::binary(operation, flags, width, a, b) {
        Computed::Number(n) => Ok(Value::Integer(width, n)),
        Computed::Poison => Ok(Value::Poison),
        Computed::Fault => Err(Why::Divide),
    }
}

/// Computes a binary operation of which the second operand is poison.
fn binary_by_poison(operation: Bin) -> Result<Value, Why>
    ensures { (flags : Flags) (width : ℕ) (x : model.Value) →
        answer_shape result ≡ binary operation flags width x model.Poison }
{
    match operation {
        Bin::Udiv | Bin::Sdiv | Bin::Urem | Bin::Srem => Err(Why::Poison),
        Bin::Add
        | Bin::Sub
        | Bin::Mul
        | Bin::Shl
        | Bin::Lshr
        | Bin::Ashr
        | Bin::And
        | Bin::Or
        | Bin::Xor => Ok(Value::Poison),
    }
}

/// Computes a binary operation of which the first operand is poison, by a number.
fn binary_of_poison(operation: Bin, b: u64) -> Result<Value, Why>
    ensures { (flags : Flags) (width u : ℕ) →
        answer_shape result ≡ binary operation flags width model.Poison (model.Integer u b) }
{
    match operation {
        Bin::Udiv | Bin::Sdiv | Bin::Urem | Bin::Srem if b == 0 => Err(Why::Divide),
        _ => Ok(Value::Poison),
    }
}

/// Returns the first value where a condition holds, else the second.
pub fn chosen(condition: Value, met: Value, unmet: Value) -> Value
    ensures { value_shape result ≡
        chosen (value_shape condition) (value_shape met) (value_shape unmet) }
{
    match condition {
        Value::Integer(_, n) => if n == 0 { unmet } else { met },
        Value::Address(_) | Value::Poison => Value::Poison,
    }
}

/// Returns a number of one width as one of another.
pub fn resized(conversion: Conv, from: u8, to: u8, x: Value) -> Value
    requires from { IsWidth from }
    requires to { IsWidth to }
    requires operand { IsInteger from (value_shape x) }
    ensures { value_shape result ≡ resized conversion from to (value_shape x) }
{
    match x {
        Value::Integer(_, n) => Value::Integer(to, ir_arith::converted(conversion, from, to, n)),
        Value::Address(_) | Value::Poison => Value::Poison,
    }
}

/// Returns a value that is not poison.
///
/// # Errors
/// `Poison` where it is poison.
pub fn frozen(x: Value) -> Result<Value, Why>
    ensures { answer_shape result ≡ frozen (value_shape x) }
{
    match x {
        Value::Integer(..) | Value::Address(_) => Ok(x),
        Value::Poison => Err(Why::Poison),
    }
}
