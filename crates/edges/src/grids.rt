use crate::{tell, tell_each};
use mapfile::MapMemory;
use std::io;

pub fn run(rt: &HostRuntime, memory: &mut MapMemory) -> anyhow::Result<()> {
    tell_headings(rt, memory)?;
    tell_sizes(rt, memory)?;
    tell_rows(rt, memory)
}

// Texts that go wrong in their heading.
fn tell_headings(rt: &HostRuntime, memory: &mut MapMemory) -> io::Result<()> {
    tell_each(
        rt,
        memory,
        &[
            ("a capital", b"Type octile\n"),
            (
                "carriage return in the first line",
                b"type octile\r\nheight 1\r\nwidth 1\r\nmap\r\n.\r\n",
            ),
            (
                "carriage return behind the height",
                b"type octile\nheight 1\r\nwidth 1\nmap\n.\n",
            ),
            ("ends in the first line", b"type oct"),
            ("ends behind the height's label", b"type octile\nheight "),
            ("ends behind a digit", b"type octile\nheight 1"),
            ("two spaces", b"type octile\nheight  1\nwidth 1\nmap\n.\n"),
            ("no width line", b"type octile\nheight 1\nmap\n.\n"),
            (
                "a sign for the width",
                b"type octile\nheight 1\nwidth -1\nmap\n.\n",
            ),
            ("no map line", b"type octile\nheight 1\nwidth 1\n.\n"),
        ],
    )
}

// Heights and widths, each with so many rows and columns of free cells.
fn tell_sizes(rt: &HostRuntime, memory: &mut MapMemory) -> anyhow::Result<()> {
    for (height, width, rows, columns) in [
        ("0", "1", 0, 1),
        ("1", "1", 1, 1),
        ("32", "1", 32, 1),
        ("33", "1", 33, 1),
        ("1", "0", 1, 0),
        ("1", "32", 1, 32),
        ("1", "33", 1, 33),
        ("32", "32", 32, 32),
        ("02", "003", 2, 3),
        ("033", "1", 33, 1),
        ("000", "1", 0, 1),
        ("0001", "1", 1, 1),
        ("1", "1000", 1, 1),
        ("33", "x", 1, 1),
    ] {
        let what = format!(in rt.alloc(); "height {height} and width {width}")?;
        let row = format!(in rt.alloc(); "{}\n", ".".repeat(rt.alloc(), columns)?)?;
        let cells = row.repeat(rt.alloc(), rows)?;
        tell_grid(rt, memory, &what, height, width, &cells)?;
    }
    Ok(())
}

// A few rows of signs, with something wrong but in the first two.
fn tell_rows(rt: &HostRuntime, memory: &mut MapMemory) -> anyhow::Result<()> {
    for (what, height, width, cells) in [
        ("every sign", "1", "7", ".G@OTSW\n"),
        ("two rows", "2", "3", ".@.\n...\n"),
        ("no rows at all", "1", "3", ""),
        ("no last line end", "1", "3", "..."),
        ("a short row", "2", "3", "..\n...\n"),
        ("ends in a row", "2", "3", "...\n.."),
        ("a long row", "1", "3", "....\n"),
        ("a strange sign where the line ends", "1", "3", "...x\n"),
        ("carriage return where the line ends", "1", "3", "...\r\n"),
        ("carriage return for a sign", "1", "3", "..\r\n"),
        ("a strange sign", "1", "3", ".x.\n"),
        ("a small g", "1", "3", "g..\n"),
        ("an empty line behind the last row", "1", "3", "...\n\n"),
        ("a row too many", "1", "3", "...\n...\n"),
    ] {
        tell_grid(rt, memory, what, height, width, cells)?;
    }
    Ok(())
}

// One line for a grid with its heading as it is due, but for the numbers.
fn tell_grid(
    rt: &HostRuntime,
    memory: &mut MapMemory,
    what: &str,
    height: &str,
    width: &str,
    cells: &str,
) -> anyhow::Result<()> {
    let text = format!(in rt.alloc(); "type octile\nheight {height}\nwidth {width}\nmap\n{cells}")?;
    tell(rt, memory, what, text.as_bytes())?;
    Ok(())
}
