//! Addresses, from that of a node on its bus to that of the processor.
ghost use Rattle.uart_discovery.specs.Tree.{IsTranslated};

use crate::errors::TreeError;
use crate::tree::blob::{Tree, be32};
use crate::tree::node::{number, property};
use crate::tree::path::{MOST_NODES, Path};

// How many cells the addresses and the sizes on a bus have, if the bus does not say it.
const ADDRESS_CELLS: u32 = 2;

const SIZE_CELLS: u32 = 1;

// Returns how many cells the addresses on a bus have.
fn address_cells(tree: Tree<'_>, bus: usize) -> Result<usize, TreeError> {
    let cells = number(tree, bus, b"#address-cells".as_slice())?;
    Ok(cells.unwrap_or(ADDRESS_CELLS) as usize)
}

// Returns how many cells the sizes on a bus have.
fn size_cells(tree: Tree<'_>, bus: usize) -> Result<usize, TreeError> {
    let cells = number(tree, bus, b"#size-cells".as_slice())?;
    Ok(cells.unwrap_or(SIZE_CELLS) as usize)
}

// Returns the number of one or two cells.
fn cells_at(bytes: &[u8], at: usize, cells: usize) -> Result<u64, TreeError> {
    let first = be32(bytes, at).ok_or(TreeError::PropertySize)?;
    match cells {
        1 => Ok(u64::from(first)),
        2 => {
            let place = at.checked_add(4).ok_or(TreeError::PropertySize)?;
            let second = be32(bytes, place).ok_or(TreeError::PropertySize)?;
            Ok(u64::from(first) * 0x1_0000_0000 + u64::from(second))
        }
        _ => Err(TreeError::Cells),
    }
}

// Returns where an address of a bus is on the bus above, if it is in a range.
fn translated(address: u64, from: u64, to: u64, size: u64) -> Option<u64>
    ensures { IsTranslated address from to size result }
{
    let distance = address.checked_sub(from)?;
    if distance >= size {
        return None;
    }
    to.checked_add(distance)
}

// Returns where an address of a bus is on the bus above.
fn on_bus_above(tree: Tree<'_>, bus: usize, above: usize, address: u64) -> Result<u64, TreeError> {
    // A bus without ranges is not seen by the processor. Empty ranges mean that addresses are the
    // same on both.
    let ranges = property(tree, bus, b"ranges".as_slice())?.ok_or(TreeError::Untranslated)?;
    if ranges.is_empty() {
        return Ok(address);
    }
    let inner = address_cells(tree, bus)?;
    let outer = address_cells(tree, above)?;
    let sizes = size_cells(tree, bus)?;
    if inner > 2 || outer > 2 || sizes > 2 {
        return Err(TreeError::Cells);
    }
    let mut row = 0;
    for _row in 0..ranges.len() / 4 {
        if row >= ranges.len() {
            break;
        }
        let from = cells_at(ranges, row, inner)?;
        let to = cells_at(ranges, row + 4 * inner, outer)?;
        let size = cells_at(ranges, row + 4 * (inner + outer), sizes)?;
        if let Some(found) = translated(address, from, to, size) {
            return Ok(found);
        }
        row += 4 * (inner + outer + sizes);
    }
    Err(TreeError::Untranslated)
}

// Returns the address of a node's first registers, as the processor sees it.
pub(crate) fn address_of(tree: Tree<'_>, path: &Path) -> Result<u64, TreeError> {
    let node = path.last()?;
    let registers = property(tree, node, b"reg".as_slice())?.ok_or(TreeError::NoAddress)?;
    let mut address = cells_at(registers, 0, address_cells(tree, path.above(1)?)?)?;
    for step in 1..MOST_NODES {
        // The root is the processor's own bus.
        if step + 1 >= path.count {
            return Ok(address);
        }
        address = on_bus_above(tree, path.above(step)?, path.above(step + 1)?, address)?;
    }
    Ok(address)
}
