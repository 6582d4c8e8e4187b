ghost use Rattle.std.specs.Prelude.{◌≡◌, ◌≤◌, IfOk};
ghost use Rattle.multiplier.specs.Nets.{inputs, product, word_a, word_b};

use crate::net::Net;
use std::alloc::{AllocError, Global};
use std::iter::once;

/// The bits of the first operand, lowest first.
pub(crate) fn word_a(alloc: Global, size: u32) -> Result<Vec<Net>, AllocError>
    ensures { IfOk result (λ nets. nets.items ≡ word_a size) }
{
    (0..size).map(|bit| Net::A(bit)).collect(alloc)
}

/// The bits of the second operand, lowest first.
pub(crate) fn word_b(alloc: Global, size: u32) -> Result<Vec<Net>, AllocError>
    ensures { IfOk result (λ nets. nets.items ≡ word_b size) }
{
    (0..size).map(|bit| Net::B(bit)).collect(alloc)
}

/// The inputs: the bits of both operands.
pub(crate) fn inputs(alloc: Global, size: u32) -> Result<Vec<Net>, AllocError>
    ensures { IfOk result (λ nets. nets.items ≡ inputs size) }
{
    let word_a = (0..size).map(|bit| Net::A(bit));
    word_a
        .chain((0..size).map(|bit| Net::B(bit)))
        .collect(alloc)
}

/// The bits of the product, lowest first.
pub(crate) fn product(alloc: Global, size: u32) -> Result<Vec<Net>, AllocError>
    requires { 1 ≤ size }
    ensures { IfOk result (λ nets. nets.items ≡ product size) }
{
    let last = size - 1;
    once(Net::Partial { column: 0, row: 0 })
        .chain((1..size).map(|row| Net::Sum { row, column: 0 }))
        .chain((1..size).map(|column| Net::Sum { row: last, column }))
        .chain(once(Net::Carry {
            row: last,
            column: last,
        }))
        .collect(alloc)
}
