use super::*;
use std::test::Fail;

#[test]
fn marks_are_set_and_cleared(rt: HostRuntime) -> Result<(), Fail> {
    let mut marks = Marks::create(rt.alloc(), 3)?;
    assert!(rt; marks.is_empty());
    marks.mark(2);
    assert_eq!(rt;
        [marks.has(1), marks.has(2), marks.has(3)],
        [false, true, false]
    );
    assert_eq!(rt; marks.len(), 1);
    marks.clear();
    assert_eq!(rt;
        [marks.has(1), marks.has(2), marks.has(3)],
        [false, false, false]
    );
    marks.mark(3);
    marks.mark(1);
    assert_eq!(rt;
        [marks.has(1), marks.has(2), marks.has(3)],
        [true, false, true]
    );
    assert_eq!(rt; marks.len(), 2);
    Ok(())
}

#[test]
fn marks_are_gone_after_the_last_stamp(rt: HostRuntime) -> Result<(), Fail> {
    let mut marks = Marks::with_stamp(rt.alloc(), 2, u32::MAX - 1)?;
    marks.mark(1);
    marks.clear();
    assert_eq!(rt; [marks.has(1), marks.has(2)], [false, false]);
    marks.mark(2);
    assert_eq!(rt; [marks.has(1), marks.has(2)], [false, true]);
    marks.clear();
    assert_eq!(rt; [marks.has(1), marks.has(2)], [false, false]);
    marks.mark(1);
    assert_eq!(rt; [marks.has(1), marks.has(2)], [true, false]);
    marks.clear();
    assert_eq!(rt; [marks.has(1), marks.has(2)], [false, false]);
    assert_eq!(rt; marks.len(), 0);
    Ok(())
}

#[test]
fn ids_are_marked_from_the_highest_on(rt: HostRuntime) -> Result<(), Fail> {
    let mut marks = Marks::create(rt.alloc(), 4)?;
    marks.mark(4);
    assert_eq!(rt;
        [marks.has(1), marks.has(2), marks.has(3), marks.has(4)],
        [false, false, false, true]
    );
    marks.mark(2);
    assert_eq!(rt;
        [marks.has(1), marks.has(2), marks.has(3), marks.has(4)],
        [false, true, false, true]
    );
    assert_eq!(rt; marks.len(), 2);
    marks.clear();
    marks.mark(3);
    assert_eq!(rt;
        [marks.has(1), marks.has(2), marks.has(3), marks.has(4)],
        [false, false, true, false]
    );
    assert_eq!(rt; marks.len(), 1);
    Ok(())
}
