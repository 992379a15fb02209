ghost use Rattle.std.specs.Prelude.{◌≡◌, [], map, reverse, IfOk, OnOk};
ghost use Rattle.std.specs.List.{All};
ghost use Rattle.std.specs.Char.{to_ascii_lowercase};
ghost use Rattle.mf_lex.specs.Growth.{Gives, InFile, Makes, alone, closed, close_step, grow, leaf_of, open_step, opened, step_of, tree_of, with_item};

use crate::fault::TreeFault;
use mf_model::{Kind, List, Span, Text, Token, Tree};
use sqlite_items::Items;
use std::alloc::{AllocError, Global};
use std::mem;

/// The number of items from which on a list is shrunk where it lies.
const LONG: usize = 256;

/// A list that is open: where its `(` stands, and its items so far.
#[derive(Drop)]
pub struct Frame {
    pub start: u32,
    pub items: List<Tree>,
}

/// The innermost open list, those around it, the innermost last, and vectors to keep the items of other
/// lists in.
#[derive(Drop)]
pub struct Lists {
    pub top: Frame,
    pub below: List<Frame>,
    pub spare: List<List<Tree>>,
}

/// The tree of the tokens of a file of the given length.
pub fn grown_tree(
    alloc: Global,
    source: &[u8],
    tokens: &[Token],
    length: u32,
) -> Result<Tree, TreeFault>
    requires { All (InFile source.now) tokens.now }
    ensures { Gives result (tree_of source.now length tokens.now) }
{
    match tokens {
        [first, others @ ..] => match first.kind() {
            Kind::Left => {
                let top = new_frame(first, List::new(alloc));
                grow(alloc, source, others, top, length)
            }
            _ => Err(TreeFault::Unbalanced { at: first.start() }),
        },
        [] => Err(TreeFault::Unbalanced { at: length }),
    }
}

fn new_frame(token: &Token, items: List<Tree>) -> Frame
    requires { items ≡ [] }
    ensures { result ≡ opened token.now }
{
    Frame {
        start: token.start(),
        items,
    }
}

/// Adds the tokens to an open list, until it is closed.
fn grow(
    alloc: Global,
    source: &[u8],
    mut tokens: &[Token],
    top: Frame,
    length: u32,
) -> Result<Tree, TreeFault>
    requires { All (InFile source.now) tokens.now }
    ensures { Gives result (grow source.now length tokens.entry.now top []) }
{
    let mut lists = Lists {
        top,
        below: List::new(alloc),
        spare: List::new(alloc),
    };
    while let [token, others @ ..] = tokens {
        if let Some(tree) = step(alloc, source, token, &mut lists)? {
            return alone(tree, others);
        }
        tokens = others;
    }
    Err(TreeFault::Unbalanced { at: length })
}

/// The tree, where no token stands behind it.
fn alone(tree: Tree, others: &[Token]) -> Result<Tree, TreeFault>
    ensures { Gives result (alone tree others.now) }
{
    match others {
        [] => Ok(tree),
        [token, ..] => Err(TreeFault::Unbalanced { at: token.start() }),
    }
}

/// Adds a token to the innermost open list. The answer is the whole tree, where the token ends it.
#[tactic(auto, unfolding(crate::specs::Growth::step_of))]
fn step(
    alloc: Global,
    source: &[u8],
    token: &Token,
    lists: &mut Lists,
) -> Result<Option<Tree>, TreeFault>
    requires { InFile source.now token.now }
    ensures { Makes result lists.new (step_of source.now lists.old.top (reverse lists.old.below) token.now) }
{
    match token.kind() {
        Kind::Left => open(alloc, token, lists),
        Kind::Right => close(alloc, token, lists),
        _ => {
            add(alloc, source, token, &mut lists.top)?;
            Ok(None)
        }
    }
}

/// Adds a word to an open list.
fn add(alloc: Global, source: &[u8], token: &Token, top: &mut Frame) -> Result<(), AllocError>
    requires { InFile source.now token.now }
    ensures { OnOk result (top.new ≡ with_item (leaf_of source.now token.now) top.old) }
{
    let bytes = &source[token.start() as usize..token.end() as usize];
    top.items.push(Tree::Leaf {
        kind: token.kind(),
        text: folded(alloc, bytes)?,
        span: token.span(),
    })
}

fn folded(alloc: Global, bytes: &[u8]) -> Result<Text, AllocError>
    ensures { IfOk result (λ text. text ≡ map to_ascii_lowercase bytes.now) }
{
    let mut text = Text::with_capacity(alloc, bytes.len())?;
    for byte in bytes {
        text.push(byte.to_ascii_lowercase())?;
    }
    Ok(text)
}

fn open(alloc: Global, token: &Token, lists: &mut Lists) -> Result<Option<Tree>, TreeFault>
    ensures { Makes result lists.new (open_step lists.old.top (reverse lists.old.below) token.now) }
{
    if lists.below.len() >= 255 {
        return Err(TreeFault::TooDeep { at: token.start() });
    }
    let items = empty_list(alloc, &mut lists.spare);
    let outer = mem::replace(&mut lists.top, new_frame(token, items));
    lists.below.push(outer)?;
    Ok(None)
}

/// An empty list, in the room of a spare one where there is one.
fn empty_list(alloc: Global, spare: &mut List<List<Tree>>) -> List<Tree>
    ensures { result ≡ [] }
{
    match spare.pop() {
        Some(mut items) => {
            items.clear();
            items
        }
        None => List::new(alloc),
    }
}

fn close(alloc: Global, token: &Token, lists: &mut Lists) -> Result<Option<Tree>, TreeFault>
    ensures { Makes result lists.new (close_step lists.old.top (reverse lists.old.below) token.now) }
{
    match lists.below.pop() {
        Some(outer) => {
            let inner = mem::replace(&mut lists.top, outer);
            let tree = closed(alloc, inner, token, &mut lists.spare)?;
            lists.top.items.push(tree)?;
            Ok(None)
        }
        None => {
            let inner = mem::replace(&mut lists.top, new_frame(token, List::new(alloc)));
            Ok(Some(closed(alloc, inner, token, &mut lists.spare)?))
        }
    }
}

fn closed(
    alloc: Global,
    frame: Frame,
    token: &Token,
    spare: &mut List<List<Tree>>,
) -> Result<Tree, AllocError>
    ensures { IfOk result (λ tree. tree ≡ closed frame token.now) }
{
    let Frame { start, items } = frame;
    Ok(Tree::Branch {
        items: fitted(alloc, items, spare)?,
        span: Span {
            start,
            end: token.end(),
        },
    })
}

/// The items in just the room that they need. A short list leaves its own room for another, so that
/// small parts of it don't lie unused between the lists.
fn fitted(
    alloc: Global,
    items: List<Tree>,
    spare: &mut List<List<Tree>>,
) -> Result<Items<Tree>, AllocError>
    ensures { IfOk result (λ it. it ≡ items) }
{
    let mut items = items.into_vec();
    if items.len() >= LONG {
        items.shrink_to_fit();
        return Ok(Items::from_vec(items));
    }
    let mut exact = Vec::with_capacity(alloc, items.len())?;
    exact.append(&mut items)?;
    spare.push(List::from_vec(items))?;
    Ok(Items::from_vec(exact))
}
