//! The blob: its header, and the tokens of its structure.
ghost use Rattle.std.specs.List.{before_first};
ghost use Rattle.std.specs.Prelude.{◌≡◌, ◌+◌, ◌==◌, IfOk, IfSome};
ghost use Rattle.uart_discovery.specs.Tree.{be32, IsBlob, text_of, aligned, token_of, part_of};
ghost use Rattle.uart_discovery.specs.Tree.{structure_of, strings_of};

use crate::errors::TreeError;

// What a blob begins with, the last version that this reads, and the first it can be read as.
const MAGIC: u32 = 0xd00d_feed;

const VERSION: usize = 17;

// Where the fields of the header are.
const TOTAL_SIZE: usize = 4;

const STRUCTURE: usize = 8;

const STRINGS: usize = 12;

const LAST_COMPATIBLE_VERSION: usize = 24;

const STRINGS_SIZE: usize = 32;

const STRUCTURE_SIZE: usize = 36;

// The numbers of the tokens.
const BEGIN_NODE: u32 = 1;

const END_NODE: u32 = 2;

const PROPERTY: u32 = 3;

const NOP: u32 = 4;

// The parts of a blob.
#[derive(Clone, Copy, Debug)]
pub(crate) struct Tree<'a> {
    // The tokens.
    pub(crate) structure: &'a [u8],
    // The names of properties.
    pub(crate) strings: &'a [u8],
}

// A token of the structure, with where the next one is. Places in the structure are counted from
// its beginning.
#[derive(Clone, Copy, Debug)]
pub(crate) enum Token {
    // A node begins. Its name is here in the structure.
    Begin {
        name: usize,
        next: usize,
    },
    // A node ends.
    End {
        next: usize,
    },
    // A property. Its name is here in the strings, and its value here in the structure.
    Property {
        name: usize,
        value: usize,
        end: usize,
        next: usize,
    },
    // Nothing.
    Nothing {
        next: usize,
    },
    // The structure ends.
    Finish,
}

// Returns the number in four bytes, the highest first.
pub(crate) fn be32(bytes: &[u8], at: usize) -> Option<u32>
    ensures { IfSome result (λ n. n ≡ be32 bytes.now at) }
{
    let end = at.checked_add(4)?;
    match bytes.get(at..end)? {
        [a, b, c, d] => Some(u32::from_be_bytes([*a, *b, *c, *d])),
        _ => None,
    }
}

// Returns the text that ends with a byte 0, without that.
pub(crate) fn text_at(bytes: &[u8], at: usize) -> Result<&[u8], TreeError>
    ensures { IfOk result (λ text. text.now ≡ text_of bytes.now at) }
{
    let rest = bytes.get(at..).ok_or(TreeError::Truncated)?;
    up_to_zero(rest).ok_or(TreeError::Truncated)
}

// Returns what stands before the first byte 0, if there is one.
fn up_to_zero(bytes: &[u8]) -> Option<&[u8]>
    ensures { IfSome result (λ text. text.now ≡ before_first (λ byte. byte == 0) bytes.now) }
{
    let length = bytes.iter().position(|byte| *byte == 0)?;
    Some(bytes.split_at(length).0)
}

// Returns a sum that is a place in the structure.
fn sum(at: usize, more: usize) -> Result<usize, TreeError>
    ensures { IfOk result (λ place. place ≡ at + more) }
{
    at.checked_add(more).ok_or(TreeError::Truncated)
}

// Returns the first place that is a multiple of four, from this one on.
fn aligned(at: usize) -> Result<usize, TreeError>
    ensures { IfOk result (λ place. place ≡ aligned at) }
{
    Ok(sum(at, 3)? / 4 * 4)
}

impl<'a> Tree<'a> {
    // Returns the parts of a blob.
    pub(crate) fn new(blob: &'a [u8]) -> Result<Tree<'a>, TreeError>
        ensures blob { IfOk result (λ tree. IsBlob blob.now) }
        ensures structure { IfOk result (λ tree. tree.structure.now ≡ structure_of blob.now) }
        ensures strings { IfOk result (λ tree. tree.strings.now ≡ strings_of blob.now) }
    {
        match be32(blob, 0) {
            None => return Err(TreeError::Truncated),
            Some(MAGIC) => {}
            Some(_) => return Err(TreeError::Magic),
        }
        let version = field(blob, LAST_COMPATIBLE_VERSION)?;
        if version > VERSION {
            return Err(TreeError::Version);
        }
        let size = field(blob, TOTAL_SIZE)?;
        let whole = blob.get(..size).ok_or(TreeError::Truncated)?;
        Ok(Tree {
            structure: part(whole, STRUCTURE, STRUCTURE_SIZE)?,
            strings: part(whole, STRINGS, STRINGS_SIZE)?,
        })
    }

    // Returns the token at a place.
    #[tactic(auto, unfolding(crate::specs::Tree::token_of))]
    pub(crate) fn token(self, at: usize) -> Result<Token, TreeError>
        ensures { IfOk result (λ token. token ≡ token_of self.entry.structure.now at) }
    {
        let kind = be32(self.structure, at).ok_or(TreeError::Truncated)?;
        let next = sum(at, 4)?;
        match kind {
            BEGIN_NODE => {
                let length = text_at(self.structure, next)?.len();
                Ok(Token::Begin {
                    name: next,
                    next: aligned(sum(sum(next, length)?, 1)?)?,
                })
            }
            END_NODE => Ok(Token::End { next }),
            PROPERTY => {
                let length = field(self.structure, next)?;
                let name = field(self.structure, sum(next, 4)?)?;
                let value = sum(next, 8)?;
                let end = sum(value, length)?;
                Ok(Token::Property {
                    name,
                    value,
                    end,
                    next: aligned(end)?,
                })
            }
            NOP => Ok(Token::Nothing { next }),
            _ => Ok(Token::Finish),
        }
    }
}

// Returns a number of the blob.
fn field(bytes: &[u8], at: usize) -> Result<usize, TreeError>
    ensures { IfOk result (λ n. n ≡ be32 bytes.now at) }
{
    match be32(bytes, at) {
        Some(number) => Ok(number as usize),
        None => Err(TreeError::Truncated),
    }
}

// Returns a part of the blob, by where the header has its offset and its size.
fn part(blob: &[u8], offset: usize, size: usize) -> Result<&[u8], TreeError>
    ensures { IfOk result (λ bytes. bytes.now ≡ part_of blob.now offset size) }
{
    let from = field(blob, offset)?;
    let to = sum(from, field(blob, size)?)?;
    blob.get(from..to).ok_or(TreeError::Truncated)
}
