use crate::Names;
use mf_model::Text;
use std::test::Fail;

#[test]
fn names_are_found(rt: HostRuntime) -> Result<(), Fail> {
    let alloc = rt.alloc();
    let mut names = Names::new(alloc);
    names.add(alloc, &Text::from_slice(alloc, b"rooma")?)?;
    let first = names.find(b"rooma".as_slice());
    let other = names.find(b"roomb".as_slice());
    assert_eq!(rt; first, Some(0));
    assert_eq!(rt; other, None);
    Ok(())
}
