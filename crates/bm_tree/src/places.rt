//! Which place stands where in the order: the way down to a key, and a place that comes in or goes out.

ghost use Rattle.std.specs.Prelude.{◌≡◌, ◌<◌, ◌≤◌, length};
ghost use Rattle.bm_tree.specs.Shape.{Holds, Sorted, count, order_of};
ghost use Rattle.bm_tree.specs.Paths.{Gap, Entered};
ghost use Rattle.bm_tree.specs.Rows.{key_of};
ghost use Rattle.bm_tree.specs.Steps.{KeepsOrder, Splices, Unlinks};
ghost use Rattle.bm_tree.specs.Colours.{Coloured};
ghost use Rattle.bm_tree.specs.Balancing.{BalancesAfter, DetachesColours, UnlinksColours};

use crate::arena::{Slot, key_at};
use crate::balance::{balance_insert, balance_take};
use crate::links::{Link, NONE, attach, kid, leftmost, link_at, only_kid, splice, substitute};

// Where a new item with this key goes: below which place, and on which side.
pub(crate) fn descend<T>(links: &[Link], slots: &[Slot<T>], root: u32, key: u32) -> (u32, bool)
    requires holds { Holds links.now root (order_of links.now root) }
    requires sorted { Sorted (key_of slots.now) (order_of links.now root) }
    ensures { Gap links.now (key_of slots.now) root key result.0 result.1
        (order_of links.now root) }
{
    let mut up = NONE;
    let mut right = false;
    let mut at = root;
    while at != NONE {
        up = at;
        right = key_at(slots, at) <= key;
        at = kid(link_at(links, at), right);
    }
    (up, right)
}

// `balance_take`, unless a red place was taken out.
fn balance_after(links: &mut [Link], root: u32, place: u32, above: u32, red: bool) -> u32
    ensures keeps { KeepsOrder links.old links.new root result above }
    ensures colours { BalancesAfter links.old links.new root place above red }
{
    if red {
        root
    } else {
        balance_take(links, root, place, above)
    }
}

// Takes out `place`, which has at most one kid, and balances the tree; returns the root.
fn detach(links: &mut [Link], root: u32, place: u32) -> u32
    ensures order { Splices links.old links.new root result place }
    ensures colours { DetachesColours links.old links.new root place }
{
    let gone = link_at(links, place);
    let rising = only_kid(gone);
    let spliced_root = splice(links, root, place);
    balance_after(links, spliced_root, rising, gone.parent, gone.red)
}

// Takes `place` out of the order. Where it has two kids, the place after it in the order, which has
// at most one, comes out of the tree and stands where it stood. Returns the root.
pub(crate) fn unlink(links: &mut [Link], root: u32, place: u32) -> u32
    requires holds { Holds links.old root (order_of links.old root) }
    requires present { 1 ≤ count place (order_of links.old root) }
    ensures order { Unlinks links.old links.new root result place }
    ensures colours { UnlinksColours links.old links.new root place }
{
    let gone = link_at(links, place);
    if gone.left == NONE || gone.right == NONE {
        return detach(links, root, place);
    }
    let next = leftmost(links, gone.right);
    let detached_root = detach(links, root, next);
    substitute(links, detached_root, place, next)
}

// Brings `place`, which holds this key, into the order, after its equals, and balances the tree; returns the root.
pub(crate) fn enter<T>(
    links: &mut [Link],
    slots: &[Slot<T>],
    root: u32,
    place: u32,
    key: u32,
) -> u32
    requires holds { Holds links.old root (order_of links.old root) }
    requires sorted { Sorted (key_of slots.now) (order_of links.old root) }
    requires coloured { Coloured links.old (order_of links.old root) }
    requires fresh { count place (order_of links.old root) ≡ 0 }
    requires inside { place < length links.old }
    requires few { length (order_of links.old root) < length links.old }
    ensures order { Entered (key_of slots.now) key place (order_of links.old root) links.new
        result }
    ensures colours { Coloured links.new (order_of links.new result) }
{
    let (up, right) = descend(links, slots, root, key);
    let hung_root = attach(links, root, up, right, place);
    balance_insert(links, hung_root, place)
}
