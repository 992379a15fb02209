use crate::{
    Atom, Cell, Instance, List, SharedList, Span, Text, TypeName, TypedList, Valued, Word, descends,
};
use mf_fraction::Frac;
use std::alloc::{AllocError, Global};
use std::test::Fail;

#[test]
fn lists_grow(rt: HostRuntime) -> Result<(), Fail> {
    let mut list = List::from_slice(rt.alloc(), &[1u16, 2])?;
    list.push(5)?;
    list.extend(&[6])?;
    list.insert(2, 4)?;
    let is_grown = has_items(&list, &[1, 2, 4, 5, 6]);
    assert!(rt; is_grown);
    Ok(())
}

#[test]
fn lists_are_joined(rt: HostRuntime) -> Result<(), Fail> {
    let mut list = List::from_slice(rt.alloc(), &[1u16])?;
    list.append(List::from_slice(rt.alloc(), &[7])?)?;
    let copy = list.copy(rt.alloc())?;
    let is_joined = has_items(&copy, &[1, 7]);
    assert!(rt; is_joined);
    Ok(())
}

// Whether these are the items of the list.
fn has_items(list: &List<u16>, items: &[u16]) -> bool {
    list.as_slice() == items
}

#[test]
fn lists_change_in_place(rt: HostRuntime) -> Result<(), Fail> {
    let mut list = List::from_slice(rt.alloc(), &[3u16, 1, 2])?;
    list.set(2, 9);
    list.as_mut_slice().swap(0, 1);
    let is_changed = has_items(&list, &[1, 3, 9]);
    assert!(rt; is_changed);
    Ok(())
}

#[test]
fn lists_are_sorted(rt: HostRuntime) -> Result<(), Fail> {
    let mut list = List::from_slice(rt.alloc(), &[3u16, 1, 1])?;
    list.sort();
    list.dedup();
    let is_sorted = has_items(&list, &[1, 3]);
    assert!(rt; is_sorted);
    Ok(())
}

#[test]
fn lists_are_ordered(rt: HostRuntime) -> Result<(), Fail> {
    let shorter = List::from_slice(rt.alloc(), &[1u16, 2])?;
    let longer = List::from_slice(rt.alloc(), &[1u16, 2, 0])?;
    let is_less = shorter < longer;
    assert!(rt; is_less);
    Ok(())
}

#[test]
fn lists_are_shared(rt: HostRuntime) -> Result<(), Fail> {
    let alloc = rt.alloc();
    let one = SharedList::from_list(List::from_slice(alloc, &[1u16, 2])?)?;
    let other = one.share()?;
    drop(one);
    assert_eq!(rt; other.as_slice(), [1u16, 2].as_slice());
    assert_eq!(rt; other.len(), 2);
    assert!(rt; !other.is_empty());
    Ok(())
}

fn words(alloc: Global, texts: &[u8]) -> Result<List<Word>, AllocError> {
    let mut words = List::new(alloc);
    for text in texts {
        let text = Text::from_slice(alloc, &[*text])?;
        let span = Span { start: 0, end: 1 };
        words.push(Word { text, span })?;
    }
    Ok(words)
}

#[test]
fn groups_share_their_types(rt: HostRuntime) -> Result<(), Fail> {
    let alloc = rt.alloc();
    let room = SharedList::from_list(words(alloc, b"r")?)?;
    let list = TypedList::new(alloc).with_group(&room, words(alloc, b"ab")?)?;
    let list = list.with_group(&room, words(alloc, b"c")?)?;
    assert_eq!(rt; list.len(), 3);
    assert!(rt; !list.shares_types(0));
    assert!(rt; list.shares_types(1));
    assert!(rt; !list.shares_types(2));
    let mut texts = List::new(alloc);
    for item in list.as_slice() {
        texts.extend(item.word.text.as_slice())?;
        for word in item.types.as_slice() {
            texts.extend(word.text.as_slice())?;
        }
    }
    assert_eq!(rt; texts.as_slice(), b"arbrcr".as_slice());
    Ok(())
}

#[test]
fn texts_grow(rt: HostRuntime) -> Result<(), Fail> {
    let alloc = rt.alloc();
    let mut text = Text::from_slice(alloc, b"pla")?;
    text.push(b'n')?;
    text.extend(b"ner")?;
    assert_eq!(rt; text.as_slice(), b"planner".as_slice());
    assert_eq!(rt; text.copy(alloc)?, text);
    assert_eq!(rt; text.len(), 7);
    text.extend(b" of tasks")?;
    assert_eq!(rt; text.as_slice(), b"planner of tasks".as_slice());
    assert_eq!(rt; text.copy(alloc)?, text);
    assert!(rt; Text::new(alloc).is_empty());
    assert!(rt; Text::with_capacity(alloc, 9)?.is_empty());
    let mut roomy = Text::with_capacity(alloc, 300)?;
    roomy.push(b'a')?;
    assert_eq!(rt; roomy.as_slice(), b"a".as_slice());
    Ok(())
}

#[test]
fn types_descend(rt: HostRuntime) -> Result<(), Fail> {
    let alloc = rt.alloc();
    let mut types = List::new(alloc);
    for parent in [0, 0, 1, 0] {
        let name = Text::new(alloc);
        types.push(TypeName { name, parent })?;
    }
    assert!(rt; descends(types.as_slice(), 2, 2));
    assert!(rt; descends(types.as_slice(), 2, 1));
    assert!(rt; descends(types.as_slice(), 2, 0));
    assert!(rt; !descends(types.as_slice(), 2, 3));
    assert!(rt; !descends(types.as_slice(), 1, 2));
    assert!(rt; descends(&[0usize, 2, 1], 1, 2));
    assert!(rt; !descends(&[0usize, 2, 1], 1, 0));
    Ok(())
}

#[test]
fn ground_parts_are_copied(rt: HostRuntime) -> Result<(), Fail> {
    let alloc = rt.alloc();
    let atom = Atom {
        predicate: 3,
        objects: List::from_slice(alloc, &[1u16, 2])?,
    };
    assert!(rt; atom.copy(alloc)? == atom);
    let valued = Valued {
        cell: Cell {
            function: 4,
            objects: List::from_slice(alloc, &[5u16])?,
        },
        value: Frac::whole(7)?,
    };
    assert!(rt; valued.copy(alloc)? == valued);
    assert!(rt; valued.cell.copy(alloc)? == valued.cell);
    let instance = Instance {
        action: 6,
        objects: List::from_slice(alloc, &[2u16, 0])?,
    };
    assert!(rt; instance.copy(alloc)? == instance);
    Ok(())
}
