use super::*;
use std::test::Fail;

// An editor's first edits: serial 1 is due, 3 leaves a gap, and the last one is repeated.
#[test]
fn edits_come_in_the_order_of_their_serials(rt: HostRuntime) -> Result<(), Fail> {
    let mut serials = Serials::new(rt.alloc())?;
    let first = digest(b"first");
    let other = digest(b"other");
    assert!(rt; serials.kept(64).is_none());
    assert_eq!(rt; serials.standing(64, 2, &first), Err(CycleFault::Gap(1)));
    assert_eq!(rt; serials.standing(64, 1, &first), Ok(Standing::New));
    serials.note(64, 1, &first, 503, 7);
    assert_eq!(rt; serials.standing(64, 3, &other), Err(CycleFault::Gap(2)));
    assert_eq!(rt; serials.standing(64, 1, &first), Ok(Standing::Complete));
    let differs = CycleFault::Differs {
        kept: first,
        sent: other,
    };
    assert_eq!(rt; serials.standing(64, 1, &other), Err(differs));
    assert_eq!(rt; serials.kept(64), Some((1, &first, 503, 7)));
    assert_eq!(rt; serials.standing(64, 2, &other), Ok(Standing::New));
    serials.note(64, 2, &other, 0, 1);
    assert_eq!(rt; serials.standing(64, 1, &first), Err(CycleFault::TooOld(2)));
    assert_eq!(rt; serials.standing(1, 1, &first), Ok(Standing::New));
    serials.clear();
    assert!(rt; serials.kept(64).is_none());
    Ok(())
}
