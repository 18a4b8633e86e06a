//! Each call on a list, where there is memory.

use std::alloc::Global;
use strm_num::{List, NoMemory, Word};

/// The items 1 and 5, by way of the items 1, 2 and 3.
fn one_and_five(alloc: Global) -> Result<List<Word>, NoMemory> {
    let mut list = List::from_slice(alloc, &[1, 2])?;
    list.push(3)?;
    if list.pop() == Some(3) && list.len() == 2 {
        list.set(1, 5);
    }
    Ok(list)
}

#[test]
fn a_list_is_what_its_calls_say(rt: HostRuntime) {
    let list = one_and_five(rt.alloc()).expect(&rt, "memory");
    assert!(rt; list.as_slice() == [1, 5].as_slice());
    assert!(rt; !list.is_empty() && *list.get(0) == 1);
}
