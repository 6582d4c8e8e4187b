use crate::runs::{HALF, HALF_SPEC, WORDS, outcome, shelf_of};
use std::test::Fail;

#[test]
fn faults_outside_are_told(rt: HostRuntime) -> Result<(), Fail> {
    let mut shelf = shelf_of(rt.alloc(), HALF.as_bytes(), HALF_SPEC.as_bytes())?;
    shelf.fail(2)?;
    let answer = outcome(rt.alloc(), WORDS, &mut shelf, 1000, "")?;
    assert_eq!(rt; answer, (4, true), "a fetch that fails");
    let words = ["check", "--kind", "hdd", "n", "absent"];
    let answer = outcome(rt.alloc(), &words, &mut shelf, 1000, "")?;
    assert_eq!(rt; answer, (4, true), "an absent file");
    let answer = outcome(rt.alloc(), WORDS, &mut shelf, 5, "check")?;
    assert_eq!(rt; answer, (5, true), "a sink of five bytes");
    Ok(())
}
