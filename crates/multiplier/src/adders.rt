ghost use Rattle.std.specs.Prelude.{◌≡◌, ◌≤◌, ◌<◌, ◌++◌, IfOk, OnOk};
ghost use Rattle.multiplier.specs.Adders.{above, adder, adder_row, adders, beside, full_adder, gates, half_adder, partial_product, partial_products, partial_row};

use crate::gate::{Gate, Operation};
use crate::net::Net;
use std::alloc::{AllocError, Global};

/// The gates of the multiplier, each behind those that drive its operands.
pub(crate) fn gates(alloc: Global, size: u32) -> Result<Vec<Gate>, AllocError>
    requires { 1 ≤ size }
    ensures { IfOk result (λ made. made.items ≡ gates size) }
{
    let mut made = Vec::new(alloc);
    push_partial_products(&mut made, size)?;
    push_adders(&mut made, size)?;
    Ok(made)
}

fn push_partial_products(made: &mut Vec<Gate>, size: u32) -> Result<(), AllocError>
    ensures { OnOk result (made.new.items ≡ made.old.items ++ partial_products size) }
{
    for row in 0..size {
        push_partial_row(made, size, row)?;
    }
    Ok(())
}

fn push_partial_row(made: &mut Vec<Gate>, size: u32, row: u32) -> Result<(), AllocError>
    ensures { OnOk result (made.new.items ≡ made.old.items ++ partial_row size row) }
{
    for column in 0..size {
        made.push(partial_product(row, column))?;
    }
    Ok(())
}

fn push_adders(made: &mut Vec<Gate>, size: u32) -> Result<(), AllocError>
    requires { 1 ≤ size }
    ensures { OnOk result (made.new.items ≡ made.old.items ++ adders size) }
{
    for row in 1..size {
        push_adder_row(made, size, row)?;
    }
    Ok(())
}

fn push_adder_row(made: &mut Vec<Gate>, size: u32, row: u32) -> Result<(), AllocError>
    requires { 1 ≤ row }
    ensures { OnOk result (made.new.items ≡ made.old.items ++ adder_row size row) }
{
    for column in 0..size {
        push_adder(made, size, row, column)?;
    }
    Ok(())
}

/// Appends the gates that add the bits that meet at a row and a column.
fn push_adder(made: &mut Vec<Gate>, size: u32, row: u32, column: u32) -> Result<(), AllocError>
    requires row_behind_first { 1 ≤ row }
    requires column_within { column < size }
    ensures { OnOk result (made.new.items ≡ made.old.items ++ adder size row column) }
{
    let own = Net::Partial { column, row };
    match (above(size, row, column), beside(row, column)) {
        (Some(second), Some(third)) => {
            made.extend_from_slice(&full_adder(row, column, own, second, third))
        }
        (Some(second), None) | (None, Some(second)) => {
            made.extend_from_slice(&half_adder(row, column, own, second))
        }
        (None, None) => Ok(()),
    }
}

/// What comes to an adder from the row above.
fn above(size: u32, row: u32, column: u32) -> Option<Net>
    requires row_behind_first { 1 ≤ row }
    requires column_within { column < size }
    ensures { result ≡ above size row column }
{
    let next = column + 1;
    if next < size {
        Some(if row == 1 {
            Net::Partial {
                column: next,
                row: 0,
            }
        } else {
            Net::Sum {
                row: row - 1,
                column: next,
            }
        })
    } else if row == 1 {
        None
    } else {
        Some(Net::Carry {
            row: row - 1,
            column,
        })
    }
}

/// The carry of the column before.
fn beside(row: u32, column: u32) -> Option<Net>
    ensures { result ≡ beside row column }
{
    if column == 0 {
        None
    } else {
        Some(Net::Carry {
            row,
            column: column - 1,
        })
    }
}

fn partial_product(row: u32, column: u32) -> Gate
    ensures { result ≡ partial_product row column }
{
    let net = Net::Partial { column, row };
    Gate::new(net, Operation::And, Net::A(column), Net::B(row))
}

fn half_adder(row: u32, column: u32, u: Net, v: Net) -> [Gate; 2]
    ensures { result ≡ half_adder row column u v }
{
    [
        Gate::new(Net::Sum { row, column }, Operation::Xor, u, v),
        Gate::new(Net::Carry { row, column }, Operation::And, u, v),
    ]
}

fn full_adder(row: u32, column: u32, x: Net, y: Net, z: Net) -> [Gate; 5]
    ensures { result ≡ full_adder row column x y z }
{
    let first_sum = Net::FirstSum { row, column };
    let first_carry = Net::FirstCarry { row, column };
    let second_carry = Net::SecondCarry { row, column };
    let carry = Net::Carry { row, column };
    [
        Gate::new(first_sum, Operation::Xor, x, y),
        Gate::new(Net::Sum { row, column }, Operation::Xor, first_sum, z),
        Gate::new(first_carry, Operation::And, x, y),
        Gate::new(second_carry, Operation::And, first_sum, z),
        Gate::new(carry, Operation::Or, first_carry, second_carry),
    ]
}
