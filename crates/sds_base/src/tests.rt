use crate::{Bytes, List, NoMemory, Same, Twin, Txt};
use std::alloc::Global;
use std::test::Fail;

fn texts(alloc: Global, first: &str, second: &str) -> Result<List<Txt>, NoMemory> {
    let mut list = List::new(alloc);
    list.push(Txt::copied(alloc, first)?)?;
    list.push(Txt::copied(alloc, second)?)?;
    Ok(list)
}

#[test]
fn copies_are_the_same_and_others_are_not(rt: HostRuntime) -> Result<(), Fail> {
    let alloc = rt.alloc();
    let list = texts(alloc, "Pen", "Ink")?;
    assert!(rt; list.same(&list.twin(alloc)?));
    assert!(rt; !list.same(&texts(alloc, "Pen", "ink")?));
    assert!(rt; Some(7u64).same(&Some(7u64).twin(alloc)?));
    assert!(rt; !Some(7u32).same(&None));
    let bytes = Bytes::of([1u8, 2].to_vec(alloc)?);
    assert!(rt; bytes.same(&bytes.twin(alloc)?));
    Ok(())
}

#[test]
fn the_inside_comes_out_as_it_went_in(rt: HostRuntime) -> Result<(), Fail> {
    let alloc = rt.alloc();
    let text = Txt::of(String::from_str(alloc, "Käse")?);
    assert!(rt; text.is("Käse") && !text.is("Kase") && !text.is_empty());
    assert_eq!(rt; text.inner().len(), 5);
    assert_eq!(rt; text.into_inner().as_str(), "Käse");
    let list = List::of([3u16, 4].to_vec(alloc)?);
    assert_eq!(rt; list.into_inner().as_slice(), [3, 4].as_slice());
    let bytes = Bytes::of([5u8].to_vec(alloc)?);
    assert_eq!(rt; bytes.into_inner().as_slice(), [5].as_slice());
    Ok(())
}
