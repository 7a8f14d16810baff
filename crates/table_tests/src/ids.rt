// So many IDs that each choice has to be found at once. Which ID is chosen is told by the rows of
// proofs/IdRows.
use id_choice::{Kind, UsedIds};
use std::alloc::{AllocError, Global};
use std::test::Fail;

// The IDs 1 to 399999, and 400001.
fn many_ids(alloc: Global) -> Result<UsedIds, AllocError> {
    let mut used = UsedIds::new(alloc);
    for id in 1..400000 {
        used.add(id)?;
    }
    used.add(400001)?;
    Ok(used)
}

#[test]
fn ids_are_chosen_from_many_used_ones(rt: HostRuntime) -> Result<(), Fail> {
    let used = many_ids(rt.alloc())?;
    for least in 1..200001 {
        assert_eq!(rt;
            used.choose(Some((least, 400001)), Kind::Regular, None),
            Some(400000)
        );
    }
    Ok(())
}

// Every other ID comes from the greatest down, and then the others from the least up.
#[test]
fn many_ids_that_come_apart_are_added(rt: HostRuntime) -> Result<(), Fail> {
    let mut used = UsedIds::new(rt.alloc());
    for count in 0..200000 {
        used.add(400000 - 2 * count)?;
    }
    assert_eq!(rt;
        used.choose(Some((2, 400000)), Kind::Regular, None),
        Some(3)
    );
    for count in 0..199999 {
        used.add(2 * count + 3)?;
    }
    assert_eq!(rt; used.choose(Some((2, 400000)), Kind::Regular, None), None);
    assert_eq!(rt; used.choose(Some((1, 400000)), Kind::System, None), Some(1));
    Ok(())
}
