use super::*;

/// The places of four things, the last found first.
fn four() -> RecentPlaces {
    let recent = RecentPlaces::new();
    recent.found(3);
    recent.found(5);
    recent.found(7);
    recent.found(9);
    recent
}

#[test]
fn what_is_found_comes_first(rt: HostRuntime) {
    let recent = four();
    assert_eq!(rt; recent.places(), [9, 7, 5, 3]);
    recent.found(5);
    assert_eq!(rt; recent.last(), 5);
    assert_eq!(rt; recent.places(), [5, 9, 7, 3]);
    recent.found(9);
    assert_eq!(rt; recent.places(), [9, 5, 7, 3]);
    recent.found(3);
    assert_eq!(rt; recent.places(), [3, 9, 5, 7]);
    recent.found(3);
    assert_eq!(rt; recent.places(), [3, 9, 5, 7]);
    recent.found(4);
    assert_eq!(rt; recent.places(), [4, 3, 9, 5]);
}

#[test]
fn places_move_with_what_stands_there(rt: HostRuntime) {
    let recent = four();
    recent.inserted(7);
    assert_eq!(rt; recent.places(), [7, 10, 8, 5]);
    recent.removed(7);
    assert_eq!(rt; recent.places(), [7, 9, 7, 5]);
    recent.removed(0);
    assert_eq!(rt; recent.places(), [6, 8, 6, 4]);
    recent.inserted(usize::MAX);
    assert_eq!(rt; recent.places(), [usize::MAX, 6, 8, 6]);
}
