ghost use Rattle.std.specs.Prelude.{◌≡◌, true};
ghost use Rattle.std.specs.List.{All};
ghost use Rattle.gd_verify.specs.Apart.{IsPlain};

use crate::meeting::meet_refusal;
use gd_base::DbError;
use gd_format::{Extent, Held};
use std::process::Abort;
use std::test::Fail;

fn held(at: u64, size: u32, by: u64) -> Held {
    Held {
        extent: Extent { at, size },
        by,
    }
}

fn are_plain(list: &[Held]) -> bool
    ensures { result ≡ true → All IsPlain list.now }
{
    for k in list {
        if k.extent.size == 0 || k.extent.at >= 1 << 63 {
            return false;
        }
    }
    true
}

#[test]
fn the_first_that_meets_one_before_it_is_named(rt: HostRuntime) -> Result<(), Fail> {
    let apart = [
        held(512, 512, 512),
        held(0, 512, 0),
        held(1536, 8, 1024),
        held(1024, 512, 1024),
    ];
    let over_a_record = [
        held(0, 512, 0),
        held(1536, 2, 1536),
        held(1600, 4, 1600),
        held(1530, 10, 1024),
        held(1601, 1, 40),
    ];
    let none: [Held; 0] = [];
    let rows = [
        (&apart[..], 1544, None),
        (&apart[..], 1543, Some(DbError::BadAvail(1024))),
        (&over_a_record[..], 2048, Some(DbError::BadAvail(1024))),
        (&over_a_record[..3], 2048, None),
        (&over_a_record[..3], 1603, Some(DbError::BadAvail(1600))),
        (&none[..], 0, None),
    ];
    for (list, next, refusal) in rows {
        assert!(&rt; are_plain(list));
        assert!(&rt; meet_refusal(rt.alloc(), next, list) == Ok(refusal));
    }
    Ok(())
}
