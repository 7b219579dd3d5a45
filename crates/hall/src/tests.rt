use crate::hall::Hall;
use crate::session::session;
use keys::price::Price;
use std::test::Fail;

#[test]
fn lines_of_a_hall(rt: HostRuntime) -> Result<(), Fail> {
    let mut places = [Price { cents: 0 }; 2];
    let mut letters = [b' '; 8];
    let mut work = [0u32; 16];
    let mut hall = Hall::new(&mut places, &mut letters, &mut work);
    let mut out = Vec::new(rt.alloc());
    hall.answer(b"a,5", &mut out)?;
    assert_eq!(rt; out.as_slice(), b"ok,1\n".as_slice());
    out.clear();
    let rest = hall.answer_next(b"c\nd", &mut out)?;
    assert_eq!(rt; out.as_slice(), b"sheet,(())\n".as_slice());
    out.clear();
    let end = hall.answer_next(rest.unwrap_or(b""), &mut out)?;
    assert_eq!(rt; out.as_slice(), b"refused,1\n".as_slice());
    out.clear();
    assert!(rt; hall.answer_next(end.unwrap_or(b"x"), &mut out)?.is_none());
    assert!(rt; out.is_empty());
    Ok(())
}

#[test]
fn whole_session(rt: HostRuntime) -> Result<(), Fail> {
    let out = session(b"a,5\nc\np,1,1", Price { cents: 0 }, rt.alloc())?;
    assert_eq!(rt; out.as_slice(), b"ok,1\nsheet,(())\npair,1,0\n".as_slice());
    Ok(())
}
