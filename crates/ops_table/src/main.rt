//! Prints the table of operations: for each row its name, the kinds of its arguments, the kind of its value, and its panics.
#![tactic(auto)]

ghost use Rattle.std.specs.Prelude.{◌<◌};

use hs_ops::{OPS, OpRow, OpTable, standard};
use hs_values::OpId;
use std::io;

fn print_row(rt: &impl Print, row: &OpRow) -> io::Result<()> {
    match str::from_utf8(row.name.bytes()) {
        Ok(name) => print!(rt; "{name}")?,
        Err(_) => print!(rt; "?")?,
    }
    for kind in row.args.as_slice() {
        print!(rt; " {kind:?}")?;
    }
    print!(rt; " -> {:?}", row.result)?;
    for panic in row.panics.as_slice() {
        print!(rt; " {panic:?}")?;
    }
    println!(rt; "")
}

/// Whether the row of this number is found by its name.
fn is_found(table: &OpTable<OPS>, number: u16) -> bool
    requires { number < OPS }
{
    table.find(table.row(OpId(number)).name.bytes()) == Some(OpId(number))
}

fn main(rt: HostRuntime) -> io::Result<()> {
    let table = standard(rt.alloc())?;
    let mut found = 0u32;
    for number in 0..OPS as u16 {
        print_row(&rt, table.row(OpId(number)))?;
        if is_found(&table, number) {
            found += 1;
        }
    }
    println!(rt; "{OPS} rows, {found} found by their names")
}
