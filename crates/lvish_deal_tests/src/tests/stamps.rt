//! What stamps tell apart.

ghost use Rattle.std.specs.Prelude.{◌≡◌};

use lvish_history::{Opened, Origin};
use std::marker::Brand;
use std::process::Abort;
use std::test::Fail;

#[test]
fn each_value_has_a_number(rt: HostRuntime) -> Result<(), Fail> {
    two_stamps::<Brand, _>(&rt, Opened::new())
}

fn two_stamps<O: Origin, R: Abort>(rt: &R, opened: Opened<u64>) -> Result<(), Fail>
    requires { opened.seen.book ≡ O.book }
{
    let mut history = opened.named::<O>();
    let seven = history.stamp(&7);
    let again = history.stamp(&7);
    let eight = history.stamp(&8);
    assert!(rt; seven.is(&seven.copy()));
    assert!(rt; eight.is(&eight.copy()));
    assert!(rt; !seven.is(&again));
    assert!(rt; !eight.is(&seven));
    assert!(rt; !seven.is(&seven.none()));
    assert!(rt; !seven.none().is(&eight.none()));
    Ok(())
}
