//! Numbers at the bounds, their order and their text.

use super::*;
use std::test::Fail;

#[test]
fn numbers_at_the_bounds(rt: HostRuntime) -> Result<(), Fail> {
    assert_eq!(rt; Num::new(i128::MIN), None);
    let least = Num::new(-i128::MAX).ok_or("a number")?;
    let greatest = Num::new(i128::MAX).ok_or("a number")?;
    assert_eq!(rt; least.get(), -170141183460469231731687303715884105727);
    assert_eq!(rt; greatest.get(), 170141183460469231731687303715884105727);
    assert!(rt; least < greatest);
    assert_eq!(rt; least.max(greatest), greatest);
    Ok(())
}

#[test]
fn decimal_text(rt: HostRuntime) -> Result<(), Fail> {
    let mut out = Vec::from_slice(rt.alloc(), b"=")?;
    for value in [0, 7, -12, 340, i128::MAX, -i128::MAX] {
        write_num(&mut out, Num::new(value).ok_or("a number")?)?;
        out.push(b',')?;
    }
    let text =
        b"=0,7,-12,340,170141183460469231731687303715884105727,-170141183460469231731687303715884105727,";
    assert_eq!(rt; out.as_slice(), text.as_slice());
    Ok(())
}
