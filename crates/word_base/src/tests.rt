use super::*;
use std::process::Abort;
use std::test::Fail;

fn weight(rt: &impl Abort, value: i128) -> Weight {
    Weight::new(value).expect(rt, "a number in range")
}

#[test]
fn levels_keep_their_letters(rt: HostRuntime) -> Result<(), Fail> {
    let levels = Levels::new(rt.alloc(), &[Decomp::S, Decomp::N])?;
    assert_eq!(rt; levels.len(), 2);
    assert!(rt; !levels.is_empty());
    assert_eq!(rt; levels.at(0), Decomp::S);
    assert_eq!(rt; levels.at(1), Decomp::N);

    let letters = vec![in rt.alloc(); Decomp::P; 4353]?;
    let fault = Levels::new(rt.alloc(), &letters).err();
    assert_eq!(rt; fault, Some(LevelsFault::TooMany));
    Ok(())
}

#[test]
fn assignments_are_written_in_place(rt: HostRuntime) -> Result<(), Fail> {
    let mut assign = Assign::new(rt.alloc(), 2)?;
    assert_eq!(rt; assign.len(), 2);
    assert!(rt; !assign.is_empty());
    assert_eq!(rt; (assign.get(0), assign.get(1)), (false, false));
    assign.set(1, true);
    assert_eq!(rt; (assign.get(0), assign.get(1)), (false, true));
    Ok(())
}

#[test]
fn weights_are_exact_or_overflow(rt: HostRuntime) {
    let least = Weight::MAX.neg();
    assert_eq!(rt; least.get(), -i128::MAX);
    assert_eq!(rt; Weight::new(i128::MIN), None);
    assert_eq!(rt; Weight::MAX.add(Weight::ONE), Err(Overflow));
    assert_eq!(rt; weight(&rt, 3).sub(weight(&rt, 5)), Ok(weight(&rt, -2)));
    assert_eq!(rt; least.mul(Weight::ONE), Ok(least));
    assert_eq!(rt; Weight::MAX.mul(weight(&rt, 2)), Err(Overflow));
    assert_eq!(rt; weight(&rt, 7).neg().get(), -7);
    let (zero, one, two, greatest) = Weight::constants();
    assert_eq!(rt;
        (zero.get(), one.get(), two.get(), greatest.get()),
        (0, 1, 2, i128::MAX)
    );
}

#[test]
fn kinds_have_their_letters(rt: HostRuntime) {
    assert!(rt; !allows(KindName::Evbdd, Decomp::P));
    assert!(rt; allows(KindName::KStarBmd, Decomp::N));
    assert_eq!(rt; usual(KindName::Evbdd), Decomp::S);
    assert_eq!(rt; usual(KindName::Hdd), Decomp::P);
}
