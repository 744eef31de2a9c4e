// What a plan begins with.
use crate::answers::tell_refused;
use crate::bars::Bar;
use motion::Trip;
use plan::{Fault, Heading, PlanRefusal};
use std::io;

// The trips of a heading: none where it is not read.
pub fn trips_in<'a>(heading: &'a Result<Heading<'_>, Fault>) -> &'a [Trip] {
    match heading {
        Ok(heading) => &heading.trips,
        Err(_) => &[],
    }
}

// The commands of the heading that stand whole before an offset: that of its fault, or the file's length.
pub fn tell_heading(rt: &HostRuntime, bytes: &[u8], end: usize) -> io::Result<()> {
    let [b'O', high, low, carts, ..] = bytes else {
        return Ok(());
    };
    let claim = u16::from_be_bytes([*high, *low]);
    println!(rt; "  0: open with claim {claim} and {carts} carts")?;
    for cart in 0..*carts {
        let offset = 4 + 5 * usize::from(cart);
        match bytes.get(offset..offset + 5) {
            Some([b'C', a, b, c, d]) if offset < end => {
                let start = u16::from_be_bytes([*a, *b]);
                let target = u16::from_be_bytes([*c, *d]);
                println!(rt; "      {offset}: cart {cart} from {start} to {target}")?;
            }
            _ => return Ok(()),
        }
    }
    Ok(())
}

// Why the heading is not read: its number of carts, which the opening is refused for, or a fault of the file.
pub fn tell_heading_fault(rt: &HostRuntime, bytes: &[u8], fault: Fault) -> io::Result<()> {
    match (fault.refusal, bytes) {
        (PlanRefusal::Call(refusal), [_, _, _, carts, ..]) => {
            tell_refused(rt, refusal, Some(Bar::Carts(*carts)))
        }
        _ => tell_fault(rt, fault),
    }
}

// A fault at its offset, with its number and its word.
pub fn tell_fault(rt: &HostRuntime, fault: Fault) -> io::Result<()> {
    let offset = fault.offset;
    match fault.refusal {
        PlanRefusal::File(refusal) => {
            println!(rt; "  {offset}: refused {} ({refusal})", refusal.number())
        }
        PlanRefusal::Call(refusal) => {
            println!(rt; "  {offset}: refused {} ({refusal})", refusal.number())
        }
    }
}
