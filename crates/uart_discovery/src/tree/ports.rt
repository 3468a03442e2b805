//! Each port of a device tree.
ghost use Rattle.std.specs.Prelude.{◌≡◌, IfOk, IfSome, option_map, slice_get};
ghost use Rattle.uart_discovery.specs.Tree.{IsBlob, IsInMemory, ports_in, ports_of};

use crate::errors::TreeError;
use crate::numbers::decimal_of;
use crate::port::PortDescription;
use crate::tree::blob::{Token, Tree, text_at};
use crate::tree::console::{is_port, port_at};
use crate::tree::path::{MOST_NODES, Path, nodes_on};
use uart_spec::ByteOrder;

/// A node of a device tree that is a port with the registers of a 16550, as `compatible` says.
#[derive(Clone, Copy, Debug, PartialEq, Eq, Hash)]
pub struct TreePort {
    /// Where the node's properties begin, in the structure block of the tree. No other node has
    /// this number, which `fdt_first_property_offset` of libfdt returns too.
    pub properties: usize,
    /// The number N of the alias `serialN` that stands for the node, of several the first. Linux
    /// gives the port this number.
    pub alias: Option<u32>,
    /// The port, or why it cannot be used, as [`TreeError::Disabled`].
    pub port: Result<PortDescription, TreeError>,
}

// A node, with the way to it from the root.
#[derive(Clone, Copy, Debug)]
struct Place {
    node: usize,
    path: Path,
}

// Returns the node with this index, of those that are ports.
#[tactic(auto, using(crate::proofs::Tokens::tokens_step))]
fn nth_port(tree: Tree<'_>, index: usize) -> Result<Option<Place>, TreeError>
    ensures { IfOk result (λ found. option_map (λ place. place.node) found
        ≡ slice_get (ports_in tree.entry.structure.now tree.entry.strings.now) index) }
{
    let mut path = Path {
        nodes: [0; MOST_NODES],
        count: 0,
    };
    // How many ports are still to be passed over.
    let mut left = index;
    let mut at = 0;
    for _token in 0..tree.structure.len() / 4 {
        match tree.token(at)? {
            Token::Begin { next, .. } => {
                path.enter(next)?;
                if is_port(tree, next)? {
                    match left.checked_sub(1) {
                        None => return Ok(Some(Place { node: next, path })),
                        Some(less) => left = less,
                    }
                }
                at = next;
            }
            Token::End { next } => {
                path.leave()?;
                at = next;
            }
            Token::Property { next, .. } => at = next,
            Token::Nothing { next } => at = next,
            Token::Finish => return Ok(None),
        }
    }
    Ok(None)
}

// Returns the number of an alias of a serial port.
fn alias_number(name: &[u8]) -> Option<u32> {
    decimal_of(name.strip_prefix(b"serial".as_slice())?)
}

// Returns whether a path leads to a node. One that leads nowhere does not.
fn leads_to(tree: Tree<'_>, path: &[u8], node: usize) -> Result<bool, TreeError> {
    match nodes_on(tree, path) {
        Ok(nodes) => Ok(nodes.last()? == node),
        Err(TreeError::NoNode | TreeError::Depth) => Ok(false),
        Err(error) => Err(error),
    }
}

// Returns the number of the first alias that stands for a node.
fn alias_of(tree: Tree<'_>, node: usize) -> Result<Option<u32>, TreeError> {
    let mut at = match nodes_on(tree, b"/aliases".as_slice()) {
        Ok(aliases) => aliases.last()?,
        Err(TreeError::NoNode) => return Ok(None),
        Err(error) => return Err(error),
    };
    for _token in 0..tree.structure.len() / 4 {
        match tree.token(at)? {
            Token::Property {
                name,
                value,
                end,
                next,
            } => {
                if let Some(number) = alias_number(text_at(tree.strings, name)?) {
                    let path = tree.structure.get(value..end).ok_or(TreeError::Truncated)?;
                    if leads_to(tree, text_at(path, 0)?, node)? {
                        return Ok(Some(number));
                    }
                }
                at = next;
            }
            Token::Nothing { next } => at = next,
            _ => return Ok(None),
        }
    }
    Ok(None)
}

/// Returns the port with this index, from 0 on, of those that a device tree has, in its order: of
/// the nodes whose `compatible` names a chip with the registers of a 16550, also of those that are
/// not to be used. `None` says that there are no more.
///
/// # Errors
///
/// If the tree itself is wrong. Why a port cannot be used is in [`TreePort::port`].
///
/// # Examples
///
/// ```
/// let found = read_tree_port(&[0; 64], 0, ByteOrder::Little);
/// assert_eq!(rt; found, Err(TreeError::Magic));
/// ```
pub fn read_tree_port(
    blob: &[u8],
    index: usize,
    native: ByteOrder,
) -> Result<Option<TreePort>, TreeError>
    // promise: the ports of a device tree are the nodes whose `compatible` names a 16550, each once
    //   and in the order of the tree. That its description and its alias are the tree's only the
    //   tests show
    // with: read_tree_port.nth
    // shown by: a_tree_says_each_of_its_ports
    // refused: a_tree_has_its_first_port_alone
    ensures tree { IfOk result (λ found. IsBlob blob.now) }
    ensures nth { IfOk result (λ found.
        option_map (λ port. port.properties) found ≡ slice_get (ports_of blob.now) index) }
    ensures memory { IfOk result (λ found. IfSome found (λ port. IfOk port.port IsInMemory)) }
{
    let tree = Tree::new(blob)?;
    let Some(place) = nth_port(tree, index)? else {
        return Ok(None);
    };
    Ok(Some(TreePort {
        properties: place.node,
        alias: alias_of(tree, place.node)?,
        port: port_at(tree, &place.path, native),
    }))
}
