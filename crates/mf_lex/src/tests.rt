ghost use Rattle.std.specs.Prelude.{◌≤◌, length};

use crate::{LexFault, TreeFault, tokens, tree};
use mf_model::{Kind, Token, Tree};
use std::alloc::{AllocError, Global};

/// Whether these are the kinds and places of the tokens.
fn are(tokens: &[Token], wanted: &[(Kind, u32, u32)]) -> bool {
    tokens.len() == wanted.len()
        && tokens.iter().zip(wanted).all(|(token, wanted)| (
            token.kind(),
            token.start(),
            token.end(),
        ) == *wanted)
}

#[test]
fn each_kind_once(rt: HostRuntime) {
    let all = tokens(rt.alloc(), b"(A-1_ ?b\r:c\x0c-1.5\n>=;d(\0\n#t\t)").expect(&rt, "tokens");
    let wanted = [
        (Kind::Left, 0, 1),
        (Kind::Name, 1, 5),
        (Kind::Variable, 6, 8),
        (Kind::Keyword, 9, 11),
        (Kind::Number, 12, 16),
        (Kind::Sign, 17, 19),
        (Kind::Plain, 24, 26),
        (Kind::Right, 27, 28),
    ];
    assert!(rt; are(all.list.as_slice(), wanted.as_slice()));
    assert_eq!(rt; all.length, 28);
}

/// The kind of a file that is one token.
fn only_kind(alloc: Global, word: &[u8]) -> Option<Kind>
    requires { length word.now ≤ 16777216 }
{
    match tokens(alloc, word) {
        Ok(all) => match all.list.as_slice() {
            [only] => Some(only.kind()),
            _ => None,
        },
        Err(_) => None,
    }
}

#[test]
fn kinds_at_their_edges(rt: HostRuntime) {
    let alloc = rt.alloc();
    assert!(rt; only_kind(alloc, b"-5") == Some(Kind::Number));
    assert!(rt; only_kind(alloc, b"5.") == Some(Kind::Plain));
    assert!(rt; only_kind(alloc, b"+") == Some(Kind::Sign));
    assert!(rt; only_kind(alloc, b"?") == Some(Kind::Plain));
    assert!(rt; only_kind(alloc, b"?1") == Some(Kind::Plain));
    assert!(rt; only_kind(alloc, b"=<") == Some(Kind::Plain));
}

/// The place of a bad byte, or 1,000 more than the place of a long word.
fn lex_place(alloc: Global, source: &[u8]) -> Option<u32>
    requires { length source.now ≤ 16777216 }
{
    match tokens(alloc, source) {
        Ok(_) | Err(LexFault::Memory) => None,
        Err(LexFault::BadByte { at }) => Some(at),
        Err(LexFault::TooLong { at }) => Some(at.saturating_add(1000)),
    }
}

#[test]
fn bytes_that_may_not_stand(rt: HostRuntime) {
    for byte in [0u8, 11, 127, 128, 255] {
        assert!(rt; lex_place(rt.alloc(), &[b'(', byte]) == Some(1));
        assert!(rt; lex_place(rt.alloc(), &[b';', byte, b' ', byte, b'\n', b'a']).is_none());
    }
}

#[test]
fn long_words(rt: HostRuntime) {
    let alloc = rt.alloc();
    let most = vec![in alloc; b'a'; 255].expect(&rt, "memory");
    let more = vec![in alloc; b'a'; 256].expect(&rt, "memory");
    assert!(rt; lex_place(alloc, most.as_slice()).is_none());
    assert!(rt; lex_place(alloc, more.as_slice()) == Some(1000));
}

/// The place of a wrong bracket, or 1,000 more than that of a list too deep.
fn tree_place(alloc: Global, source: &[u8]) -> Option<u32>
    requires { length source.now ≤ 16777216 }
{
    let Ok(all) = tokens(alloc, source) else {
        return None;
    };
    match tree(alloc, source, &all) {
        Ok(_) | Err(TreeFault::Memory) => None,
        Err(TreeFault::Unbalanced { at }) => Some(at),
        Err(TreeFault::TooDeep { at }) => Some(at.saturating_add(1000)),
    }
}

#[test]
fn wrong_brackets(rt: HostRuntime) {
    let alloc = rt.alloc();
    assert!(rt; tree_place(alloc, b"(define (domain d)") == Some(18));
    assert!(rt; tree_place(alloc, b"") == Some(0));
    assert!(rt; tree_place(alloc, b" a") == Some(1));
    assert!(rt; tree_place(alloc, b"(a) (") == Some(4));
    let deep = vec![in alloc; b'('; 257].expect(&rt, "memory");
    assert!(rt; tree_place(alloc, deep.as_slice()) == Some(1256));
}

/// Writes a tree with a blank behind each item.
fn write(tree: &Tree, out: &mut Vec<u8>) -> Result<(), AllocError> {
    match tree {
        Tree::Leaf { text, .. } => out.extend_from_slice(text.as_slice()),
        Tree::Branch { items, .. } => {
            out.push(b'(')?;
            for item in items.as_slice() {
                write(item, out)?;
                out.push(b' ')?;
            }
            out.push(b')')?;
            Ok(())
        }
    }
}

#[test]
fn tree_of_a_file(rt: HostRuntime) {
    let alloc = rt.alloc();
    let source = b"(Define (A) ;x\n ((b) 1))";
    let all = tokens(alloc, source).expect(&rt, "tokens");
    let root = tree(alloc, source, &all).expect(&rt, "tree");
    let mut out = Vec::new(alloc);
    write(&root, &mut out).expect(&rt, "memory");
    assert!(rt; out.as_slice() == b"(define (a ) ((b ) 1 ) )".as_slice());
}
