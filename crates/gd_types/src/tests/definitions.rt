use super::defined;
use crate::{Definition, Member, Words};
use gd_base::Datum;
use std::test::Fail;

#[test]
fn members_are_accepted_by_their_places(rt: HostRuntime) -> Result<(), Fail> {
    let alloc = rt.alloc();
    let definition = defined(
        alloc,
        true,
        &[Member::Row(3), Member::Pad(2), Member::Double],
    )?;
    let rows = [
        (Member::Row(10), true),
        (Member::Row(11), false),
        (Member::Off(13), false),
        (Member::Off(14), true),
        (Member::Off(65_536), true),
        (Member::Off(65_537), false),
        (Member::Pad(65_536), true),
        (Member::Pad(65_537), false),
        (Member::Float, true),
    ];
    for (member, accepted) in rows {
        assert_eq!(rt; definition.accepts(member), accepted, "{member:?}");
    }
    assert!(rt; definition.has_float());
    assert!(rt; definition.copy()?.has_float());
    Ok(())
}

#[test]
fn nothing_comes_behind_a_text(rt: HostRuntime) -> Result<(), Fail> {
    let alloc = rt.alloc();
    for text in [9, 10] {
        let definition = defined(alloc, true, &[Member::Row(1), Member::Row(text)])?;
        assert!(rt; !definition.has_float());
        for member in [
            Member::Row(0),
            Member::Pad(0),
            Member::Off(9),
            Member::Row(9),
        ] {
            assert!(rt; !definition.accepts(member), "{member:?}");
        }
    }
    Ok(())
}

#[test]
fn without_braces_there_is_one_value(rt: HostRuntime) -> Result<(), Fail> {
    let alloc = rt.alloc();
    let mut bare = Definition::new(alloc, false);
    assert!(rt; !bare.accepts(Member::Pad(1)));
    assert!(rt; !bare.accepts(Member::Off(1)));
    assert!(rt; bare.accepts(Member::Float));
    assert!(rt; bare.accepts(Member::Row(1)));
    bare.push(Member::Row(1))?;
    assert!(rt; !bare.accepts(Member::Row(1)));
    Ok(())
}

#[test]
fn words_are_kept_in_their_order(rt: HostRuntime) -> Result<(), Fail> {
    let alloc = rt.alloc();
    let mut words = Words::new(alloc);
    for word in ["7", "", "ab"] {
        words.push(Datum::from_slice(alloc, word.as_bytes())?)?;
    }
    let kept = words.as_slice();
    assert_eq!(rt; kept.len(), 3);
    assert_eq!(rt; kept[0].as_slice(), b"7".as_slice());
    assert_eq!(rt; kept[1].as_slice(), b"".as_slice());
    assert_eq!(rt; kept[2].as_slice(), b"ab".as_slice());
    Ok(())
}
