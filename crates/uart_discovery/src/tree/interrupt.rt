//! How a node interrupts.

use crate::errors::TreeError;
use crate::port::Interrupt;
use crate::tree::blob::{Tree, be32};
use crate::tree::node::{node_with, number, phandle_of, property};
use crate::tree::path::{MOST_NODES, Path};

// The most cells of an interrupt that are told. No binding has more.
const MOST_CELLS: usize = 4;

// Returns the phandle of the controller of a node: that which the node names, or the nearest node
// above, unless a controller is on the way.
fn parent_of(tree: Tree<'_>, path: &Path) -> Result<Option<u32>, TreeError> {
    for step in 0..MOST_NODES {
        if step >= path.count {
            break;
        }
        let node = path.above(step)?;
        if step > 0 && property(tree, node, b"#interrupt-cells".as_slice())?.is_some() {
            return phandle_of(tree, node);
        }
        if let Some(parent) = number(tree, node, b"interrupt-parent".as_slice())? {
            return Ok(Some(parent));
        }
    }
    Ok(None)
}

// Returns how many cells an interrupt of a controller has, or, if the tree has no such controller,
// how many there are.
fn cells_of(tree: Tree<'_>, parent: Option<u32>, there: usize) -> Result<usize, TreeError> {
    let Some(phandle) = parent else {
        return Ok(there);
    };
    let Some(controller) = node_with(tree, phandle)? else {
        return Ok(there);
    };
    let Some(cells) = number(tree, controller, b"#interrupt-cells".as_slice())? else {
        return Ok(there);
    };
    Ok(cells as usize)
}

// Returns the first interrupt of a list for a controller.
fn first_of(tree: Tree<'_>, parent: Option<u32>, list: &[u8]) -> Result<Interrupt, TreeError> {
    let there = list.len() / 4;
    let most = cells_of(tree, parent, there)?;
    if there < most {
        return Err(TreeError::PropertySize);
    }
    let mut cells = [0; MOST_CELLS];
    let mut count = 0u8;
    for cell in list.chunks_exact(4).take(most.min(MOST_CELLS)) {
        if let Some(number) = be32(cell, 0) {
            cells[usize::from(count) % MOST_CELLS] = number;
            count = count.wrapping_add(1);
        }
    }
    Ok(Interrupt::Cells {
        parent,
        cells,
        count,
    })
}

// Returns the first interrupt of the node at the end of a path.
pub(crate) fn interrupt_of(tree: Tree<'_>, path: &Path) -> Result<Option<Interrupt>, TreeError> {
    let node = path.last()?;
    // If both are there, the first counts.
    if let Some(list) = property(tree, node, b"interrupts-extended".as_slice())? {
        let parent = be32(list, 0).ok_or(TreeError::PropertySize)?;
        let list = list.get(4..).ok_or(TreeError::PropertySize)?;
        return Ok(Some(first_of(tree, Some(parent), list)?));
    }
    let Some(list) = property(tree, node, b"interrupts".as_slice())? else {
        return Ok(None);
    };
    Ok(Some(first_of(tree, parent_of(tree, path)?, list)?))
}
