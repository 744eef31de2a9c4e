ghost use Rattle.std.specs.Prelude.{◌≡◌, ◌+◌, ◌≤◌, IfOk, vec_capacity, vec_len};
ghost use Rattle.std.specs.Result.{result_map_both};
ghost use Rattle.maps.specs.GridMaps.{grid_of};
ghost use Rattle.mapfile.specs.GridFiles.{body, grid_reading};
ghost use Rattle.mapfile.specs.GridLayout.{GridReadExactly, GridFaultsExactly};
ghost use Rattle.mapfile.specs.GridReads.{ReadsCell, ReadsRow, behind_heading};

use crate::fault::Fault;
use crate::memory::MapMemory;
use crate::text::{after_text, size_line};
use cursor::Cursor;
use maps::{GridMap, MapRefusal, Sign, read_sign};

// A heading that was read, and the rows behind it.
#[derive(Clone, Copy)]
pub struct Heading<'a> {
    height: usize,
    width: usize,
    rows: Cursor<'a>,
}

// A map in the grid layout, or the first fault.
#[tactic(auto, using(crate::proofs::GridLayout::grid_faults_exactly))]
pub fn read_grid<'m>(memory: &'m mut MapMemory, bytes: &[u8]) -> Result<&'m GridMap, Fault>
    ensures is_the_reading { grid_reading bytes.now ≡ result_map_both (λ map. grid_of map.now) (λ f. f) result }
    ensures read_exactly { GridReadExactly bytes.now }
    ensures refused_exactly { GridFaultsExactly bytes.now }
{
    let heading = read_heading(bytes)?;
    read_cells(&mut memory.cells, heading)?;
    match memory
        .grid
        .lay(heading.height, heading.width, &memory.cells)
    {
        Ok(()) => Ok(&memory.grid),
        // there are as many cells as the heading says
        Err(_) => unreachable!(),
    }
}

#[tactic(auto, unfolding(crate::specs::GridFiles::grid_reading))]
fn read_heading(bytes: &[u8]) -> Result<Heading<'_>, Fault>
    ensures is_the_reading { grid_reading bytes.now ≡ behind_heading result }
    ensures gauge { IfOk result (λ h. (h.height ≤ 32) × (h.width ≤ 32)) }
{
    let rest = after_text(Cursor { bytes, at: 0 }, b"type octile\nheight ")?;
    let (height, rest) = size_line(rest)?;
    let rest = after_text(rest, b"width ")?;
    let (width, rest) = size_line(rest)?;
    let rows = after_text(rest, b"map\n")?;
    Ok(Heading {
        height,
        width,
        rows,
    })
}

// The cells of the rows, row by row to the file's end.
fn read_cells(cells: &mut Vec<bool>, heading: Heading<'_>) -> Result<(), Fault>
    requires gauge { (heading.height ≤ 32) × (heading.width ≤ 32) }
    requires room { 1024 ≤ vec_capacity cells.old }
    ensures is_the_reading { body heading.entry.height heading.entry.width heading.entry.width heading.entry.rows.at heading.entry.rows.bytes.now ≡ result_map_both (λ _. cells.new.items) (λ f. f) result }
    ensures room { vec_capacity cells.new ≡ vec_capacity cells.old }
{
    cells.clear();
    let mut rest = heading.rows;
    for _ in 0..heading.height {
        rest = read_row(cells, rest, heading.width)?;
    }
    if !rest.bytes.is_empty() {
        return Err(Fault::new(MapRefusal::Ragged, rest.at));
    }
    Ok(())
}

// Adds the cells of one row, for which there is room, and gives what is left behind its line.
fn read_row<'a>(cells: &mut Vec<bool>, row: Cursor<'a>, width: usize) -> Result<Cursor<'a>, Fault>
    requires { vec_len cells.old + width ≤ vec_capacity cells.old }
    ensures is_the_reading { ReadsRow width row.entry cells.old.items cells.new.items result }
    ensures few { vec_len cells.new ≤ vec_len cells.old + width }
    ensures room { vec_capacity cells.new ≡ vec_capacity cells.old }
{
    let signs = &row.bytes[..width.min(row.bytes.len())];
    for (i, sign) in signs.iter().enumerate() {
        cells.push_reserved(is_free(*sign, row.at + i)?);
    }
    if row.bytes.get(width) != Some(&b'\n') {
        return Err(Fault::new(MapRefusal::Ragged, row.at + signs.len()));
    }
    Ok(row.behind(width + 1))
}

// Whether the sign at `offset` says that its cell is free. No `From`, since it takes both.
fn is_free(sign: u8, offset: usize) -> Result<bool, Fault>
    ensures { ReadsCell sign offset result }
{
    match read_sign(char::from(sign)) {
        Sign::Free => Ok(true),
        Sign::Blocked => Ok(false),
        Sign::Strange if sign == b'\n' => Err(Fault::new(MapRefusal::Ragged, offset)),
        Sign::Strange => Err(Fault::new(MapRefusal::StrangeSign, offset)),
    }
}
