// One list, through each of its calls.
use crate::{Bounded, Full};

#[test]
fn a_list_is_made_and_edited(rt: HostRuntime) -> Result<(), std::alloc::AllocError> {
    let mut list = Bounded::<u32, 5>::new(rt.alloc())?;
    assert_eq!(rt; list.len(), 0);
    assert_eq!(rt; list.push(10), Ok(()));
    assert_eq!(rt; list.extend(&[20, 50]), Ok(()));
    assert_eq!(rt; list.insert_slice(2, &[30, 40]), Ok(()));
    assert_eq!(rt; list.as_slice(), [10, 20, 30, 40, 50].as_slice());
    assert_eq!(rt; list.push(60), Err(Full));
    assert_eq!(rt; list.replace(4, 55), Some(50));
    list.remove_range(1, 3);
    assert_eq!(rt; list.remove(0), Some(10));
    assert_eq!(rt; list.as_slice(), [40, 55].as_slice());
    list.truncate(1);
    assert_eq!(rt; list.as_slice(), [40].as_slice());
    list.clear();
    assert_eq!(rt; list.len(), 0);
    assert_eq!(rt; list.extend(&[1, 2, 3, 4, 5]), Ok(()));
    list.bring(1, 4);
    assert_eq!(rt; list.as_slice(), [1, 5, 2, 3, 4].as_slice());
    Ok(())
}
