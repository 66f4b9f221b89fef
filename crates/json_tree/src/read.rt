//! From a text to its tree, in one pass over the tokens.

ghost use Rattle.std.specs.Prelude.{◌≡◌, ◌<◌, length, Some, None, Err, IfOk, IfErr, OnOk, IsUtf8};
ghost use Rattle.json.specs.Json.{value, items, members};
ghost use Rattle.serde_json.specs.Data.{Data, Items, Members, array, object, no_members};
ghost use Rattle.serde_json.specs.Read.{of_json, of_items, of_members, converted, read as read_text};
ghost use Rattle.json_tree.specs.View.{view};
ghost use Rattle.json_tree.specs.inner.Run.{AddsOne};
ghost use Rattle.json_tree.specs.declared.read.Refused.TheVariants.{Invalid as IsInvalid, Memory};

use crate::nodes::Nodes;
use crate::number;
use crate::tree::Tree;
use json::{Invalid, Reader, Scratch, Token};
use std::alloc::{AllocError, Global};

/// How many levels arrays and objects may nest, as in `serde_json`.
const MAX_DEPTH: usize = 127;

/// Why no tree was read.
#[derive(Clone, Copy, Drop, PartialEq, Eq)]
pub enum Refused {
    /// The text is no JSON, nests over 127 levels deep, or has a number that is no finite float.
    Invalid,
    /// Memory ran out, or the text has more than 4,294,967,295 nodes.
    Memory,
}

impl From<AllocError> for Refused {
    ghost from_gives = { λ _ e. e ≡ Memory };

    fn from(_e: AllocError) -> Refused {
        Refused::Memory
    }
}

impl From<Invalid> for Refused {
    ghost from_gives = { λ _ e. e ≡ IsInvalid };

    fn from(_e: Invalid) -> Refused {
        Refused::Invalid
    }
}

impl<'a> Tree<'a> {
    /// The tree of a text. Its texts with an escape lie in `scratch`.
    ///
    /// `Invalid` comes where `serde_json` reads nothing, or the bytes are not UTF-8, and `Memory` only
    /// where a growth of memory was refused, or there are more than 4,294,967,295 nodes.
    pub fn from_slice(
        alloc: Global,
        bytes: &'a [u8],
        scratch: &'a mut Scratch,
    ) -> Result<Tree<'a>, Refused>
        ensures ok { IfOk result (λ t. IsUtf8 bytes.now × (read_text bytes.now ≡ Some (view t))) }
        ensures invalid { result ≡ Err Refused.Invalid → IsUtf8 bytes.now
            → read_text bytes.now ≡ None }
    {
        match simdutf8::compat::from_utf8(bytes) {
            Ok(text) => Tree::from_str(alloc, text, scratch),
            Err(_) => Err(Refused::Invalid),
        }
    }

    /// The same for a text that is known to be UTF-8.
    pub fn from_str(
        alloc: Global,
        text: &'a str,
        scratch: &'a mut Scratch,
    ) -> Result<Tree<'a>, Refused>
        ensures ok { IfOk result (λ t. read_text text.now ≡ Some (view t)) }
        ensures invalid { result ≡ Err Refused.Invalid → read_text text.now ≡ None }
    {
        let mut reader = Reader::new(text, scratch)?;
        let mut nodes = Nodes::new(alloc, text);
        nodes.reserve();
        read(&mut nodes, &mut reader, MAX_DEPTH)?;
        if reader.next().is_some() {
            return Err(Refused::Invalid);
        }
        Ok(Tree::of_nodes(nodes))
    }
}

/// Reads the next value of the reader. Arrays and objects may nest `depth` deep.
#[cycle(read)]
#[inline(always)]
fn read<'a>(nodes: &mut Nodes<'a>, reader: &mut Reader<'a>, depth: usize) -> Result<(), Refused>
    ensures ok { OnOk result ((d : Data) × (converted of_json (value depth reader.old) ≡ Some (d, reader.new))
        × AddsOne nodes.old d nodes.new) }
    ensures shorter { OnOk result (length reader.new < length reader.old) }
    ensures err { result ≡ Err Refused.Invalid → converted of_json (value depth reader.old) ≡ None }
{
    let quote = reader.offset();
    let token = reader.next().ok_or(Refused::Invalid)?;
    match token {
        Token::String(text) => Ok(nodes.push_text(text, quote)?),
        Token::Number(text) => match number::parse(text) {
            Some(number) => Ok(nodes.push_number(number)?),
            None => Err(Refused::Invalid),
        },
        Token::Bool(b) => Ok(nodes.push_bool(b)?),
        Token::Null => Ok(nodes.push_null()?),
        Token::EndObject | Token::EndArray | Token::Key(_) | Token::Bad => Err(Refused::Invalid),
        Token::BeginArray => {
            if depth == 0 {
                return Err(Refused::Invalid);
            }
            read_array(nodes, reader, depth - 1)
        }
        Token::BeginObject => {
            if depth == 0 {
                return Err(Refused::Invalid);
            }
            read_object(nodes, reader, depth - 1)
        }
    }
}

/// Reads an array whose bracket was read.
#[cycle(read)]
#[inline(never)]
fn read_array<'a>(
    nodes: &mut Nodes<'a>,
    reader: &mut Reader<'a>,
    depth: usize,
) -> Result<(), Refused>
    ensures ok { OnOk result ((ds : Items)
        × (converted of_items (items (value depth) (length reader.old) reader.old) ≡ Some (ds, reader.new))
        × AddsOne nodes.old (array ds) nodes.new) }
    ensures shorter { OnOk result (length reader.new < length reader.old) }
    ensures err { result ≡ Err Refused.Invalid
        → converted of_items (items (value depth) (length reader.old) reader.old) ≡ None }
{
    let place = nodes.len();
    nodes.push_null()?;
    'items: while !reader.take_end_array() {
        read(nodes, reader, depth)?;
    }
    Ok(nodes.close_array(place)?)
}

/// Reads an object whose brace was read.
#[cycle(read)]
#[inline(never)]
fn read_object<'a>(
    nodes: &mut Nodes<'a>,
    reader: &mut Reader<'a>,
    depth: usize,
) -> Result<(), Refused>
    ensures ok { OnOk result ((ms : Members)
        × (converted (λ ms. of_members ms no_members)
        (members (value depth) (length reader.old) reader.old) ≡ Some (ms, reader.new))
        × AddsOne nodes.old (object ms) nodes.new) }
    ensures shorter { OnOk result (length reader.new < length reader.old) }
    ensures err { result ≡ Err Refused.Invalid
        → converted (λ ms. of_members ms no_members)
        (members (value depth) (length reader.old) reader.old) ≡ None }
{
    let place = nodes.len();
    nodes.push_null()?;
    'members: loop {
        let quote = reader.offset();
        let Some(key) = reader.next_key()? else {
            break;
        };
        nodes.push_text(key, quote)?;
        read(nodes, reader, depth)?;
    }
    Ok(nodes.close_object(place)?)
}
