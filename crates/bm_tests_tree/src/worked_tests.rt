//! The worked example: keys 5, 5 and 3, in this order.

use bm_tree::RedBlack;
use std::test::Fail;

#[test]
fn equal_keys_keep_the_order_of_their_inserts(rt: HostRuntime) -> Result<(), Fail> {
    let mut tree: RedBlack<char> = RedBlack::new(rt.alloc());
    assert!(rt; tree.least().is_none());
    assert!(rt; tree.at(0).is_none());
    assert!(rt; tree.take(0).is_none());

    let a = tree.insert(5, 'a').ok().ok_or("no memory")?;
    assert!(rt; tree.len() < 10);
    let b = tree.insert(5, 'b').ok().ok_or("no memory")?;
    assert!(rt; tree.len() < 10);
    let c = tree.insert(3, 'c').ok().ok_or("no memory")?;
    assert_eq!(rt; tree.len(), 3);
    assert!(rt; a != b && a != c && b != c);
    assert_eq!(rt; tree.at(a).copied(), Some('a'));
    assert_eq!(rt; tree.at(b).copied(), Some('b'));

    assert_eq!(rt; tree.least(), Some(c));
    assert_eq!(rt; tree.take(c), Some((3, 'c')));
    assert_eq!(rt; tree.least(), Some(a));
    assert!(rt; tree.take(c).is_none());
    assert!(rt; tree.at(c).is_none());
    assert_eq!(rt; tree.len(), 2);

    // The place of c is used again, here for an item that goes first.
    let d = tree.insert(4, 'd').ok().ok_or("no memory")?;
    assert_eq!(rt; d, c);
    assert_eq!(rt; tree.least(), Some(d));
    assert_eq!(rt; tree.pop_least(), Some((4, 'd')));
    assert_eq!(rt; tree.pop_least(), Some((5, 'a')));
    assert_eq!(rt; tree.pop_least(), Some((5, 'b')));
    assert_eq!(rt; tree.pop_least(), None);
    Ok(())
}
