// Lists over two and three places.
ghost use Rattle.std.specs.Prelude.{nat_lt};

use super::*;

// Passes what is above a number.
struct Above(u8);

impl Test<u8> for Above {
    ghost holds = { λ s x. nat_lt s.0 x };

    fn passes(&self, entry: &u8) -> bool {
        self.0 < *entry
    }
}

#[test]
fn refuses_where_every_place_is_in_use(rt: HostRuntime) {
    let mut places = [0u8; 2];
    let mut list = BoundedList::new(&mut places);
    assert!(rt; list.push(3).is_ok() && list.push(4).is_ok());
    assert!(rt; list.push(5).is_err());
    assert_eq!(rt; list.pop(), Some(4));
    assert!(rt; list.push(6).is_ok());
    assert_eq!(rt; list.get(1), Some(6));
}

#[test]
fn finds_the_last_that_passes(rt: HostRuntime) {
    let mut places = [9u8; 3];
    let mut list = BoundedList::new(&mut places);
    assert!(rt; list.push(3).is_ok() && list.push(7).is_ok());
    assert_eq!(rt; list.find(&Above(3)), Some(7));
    assert_eq!(rt; list.find(&Above(7)), None);
    assert!(rt; list.replace(0, 8).is_some());
    assert_eq!(rt; list.find(&Above(3)), Some(7));
    assert_eq!(rt; list.find(&Above(7)), Some(8));
}
