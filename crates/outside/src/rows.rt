// What rows answer, at the edges of what is allowed.
use crate::row::Row;
use floor::{Place, neighbours_of};
use std::io;

pub fn run(rt: &HostRuntime) -> io::Result<()> {
    tell_row(rt, 0, &[])?;
    tell_row(rt, 3, &[0, 1, 2, 3])?;
    tell_row(rt, 1024, &[0, 1023, 1024])?;
    tell_row(rt, 1025, &[])
}

// The neighbours of some places, or why there is no such row.
fn tell_row(rt: &HostRuntime, places: u16, asked: &[u16]) -> io::Result<()> {
    print!(rt; "row of {places}:")?;
    match Row::new(places) {
        Ok(row) => {
            for p in asked {
                tell_place(rt, &row, Place(*p))?;
            }
        }
        Err(refusal) => print!(rt; " refused {} ({refusal})", refusal.number())?,
    }
    println!(rt; "")
}

fn tell_place(rt: &HostRuntime, row: &Row, p: Place) -> io::Result<()> {
    print!(rt; " [{p}:")?;
    for q in neighbours_of(row, p) {
        print!(rt; " {q}")?;
    }
    print!(rt; "]")
}
