//! Graphs whose reached nodes were found by hand.

ghost use Rattle.std.specs.Prelude.{◌≡◌, Some, None};

use norm_lang::{Fork, reach};
use std::alloc::AllocError;

/// A fork with one successor.
const fn to(node: u32) -> Fork
    ensures { result ≡ record { first = Some node; second = None } }
{
    Fork {
        first: Some(node),
        second: None,
    }
}

const END: Fork = Fork {
    first: None,
    second: None,
};

#[test]
fn first_successors_are_followed(rt: HostRuntime) -> Result<(), AllocError> {
    let marks = reach(rt.alloc(), &[to(1), to(1), to(0)], 0)?;
    assert!(rt; marks.items() == [true, true, false].as_slice());
    Ok(())
}

#[test]
fn second_successors_are_followed(rt: HostRuntime) -> Result<(), AllocError> {
    // 0 and 3 are a cycle, and so are 1 and 2, and 4 and 5; from 5 a way leads in, and none leads there.
    let forks = [
        Fork {
            first: Some(1),
            second: Some(3),
        },
        to(2),
        to(1),
        Fork {
            first: None,
            second: Some(0),
        },
        to(5),
        Fork {
            first: Some(4),
            second: Some(0),
        },
        END,
    ];
    let marks = reach(rt.alloc(), &forks, 0)?;
    assert!(rt; marks.items() == [true, true, true, true, false, false, false].as_slice());
    Ok(())
}

#[test]
fn the_start_is_reached(rt: HostRuntime) -> Result<(), AllocError> {
    let alloc = rt.alloc();
    assert!(rt; reach(alloc, &[END], 0)?.items() == [true].as_slice());
    assert!(rt; reach(alloc, &[to(1), END], 1)?.items() == [false, true].as_slice());
    Ok(())
}
