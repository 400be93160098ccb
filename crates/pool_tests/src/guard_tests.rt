//! Guards and gathered slots.

use guard_words::gathered::Gathered;
use guard_words::row::GuardRow;

/// Whether the guards of the registers 0, 2 and 7 are validated.
fn validated(guards: &GuardRow) -> [bool; 3] {
    [
        guards.is_validated(0),
        guards.is_validated(2),
        guards.is_validated(7),
    ]
}

#[test]
fn guards_are_put_and_validated(rt: HostRuntime) {
    let mut guards = GuardRow::empty();
    assert!(rt; guards.next_to_clear([false; 8]).is_none());
    guards.put(2, 5);
    guards.put(7, 6);
    assert!(rt; guards.slot(2) == 5);
    assert!(rt; validated(&guards) == [false, false, false]);
    guards.pass_check();
    assert!(rt; validated(&guards) == [false, true, true]);
    guards.put(2, 9);
    assert!(rt; validated(&guards) == [false, false, true]);
}

#[test]
fn guards_are_cleared_from_the_least(rt: HostRuntime) {
    let mut guards = GuardRow::empty();
    guards.put(2, 5);
    guards.put(7, 6);
    let second = [false, false, true, false, false, false, false, false];
    let both = [false, false, true, false, false, false, false, true];
    assert!(rt; guards.next_to_clear([false; 8]) == Some(2));
    assert!(rt; guards.next_to_clear(second) == Some(7));
    assert!(rt; guards.next_to_clear(both).is_none());
    guards.put(2, 0);
    assert!(rt; guards.next_to_clear([false; 8]) == Some(7));
}

#[test]
fn gathered_slots_are_named(rt: HostRuntime) {
    let mut gathered = Gathered::empty();
    assert!(rt; !gathered.names(3));
    gathered.add(3);
    gathered.add(0);
    gathered.add(4096);
    let named = [
        gathered.names(3),
        gathered.names(4096),
        gathered.names(0),
        gathered.names(4),
    ];
    assert!(rt; named == [true, true, false, false]);
}
