//! The colours: what makes both rules hold again after a place came in or went out.

ghost use Rattle.std.specs.Prelude.{◌≡◌, ◌↔◌, IsTrue};
ghost use Rattle.bm_tree.specs.Links.{link, painted, sibling_of};
ghost use Rattle.bm_tree.specs.Shape.{SameTree};
ghost use Rattle.bm_tree.specs.Steps.{KeepsOrder, StaysIn};
ghost use Rattle.bm_tree.specs.Colours.{HasBlackKids};
ghost use Rattle.bm_tree.specs.Balancing.{ClimbsRed, StopsRed, LinesUp, BalancesRed, GoesUp, ClimbsShort, BalancesShort, Straightens, RotatesUp};

use crate::links::{Link, NONE, kid, link_at, put, rotate};

fn paint(links: &mut [Link], place: u32, red: bool)
    ensures { links.new ≡ painted links.old place red }
{
    let was = link_at(links, place);
    put(
        links,
        place,
        Link {
            left: was.left,
            right: was.right,
            parent: was.parent,
            red,
        },
    );
}

fn is_red(links: &[Link], place: u32) -> bool
    ensures { result ≡ (link links.now place).red }
{
    link_at(links, place).red
}

// The other kid of `up` than `place`.
fn sibling(links: &[Link], up: u32, place: u32) -> u32
    ensures { result ≡ sibling_of (link links.now up) place }
{
    let above = link_at(links, up);
    if above.left == place {
        above.right
    } else {
        above.left
    }
}

// Paints from the red `place` upwards while it has a red parent and a red uncle; returns the place
// where that ends. In a tree the uncle is another place than the parent; the test says so to the
// proof that the loop ends.
fn climb_red(links: &mut [Link], place: u32) -> u32
    ensures same_tree { SameTree links.old links.new }
    ensures inside { StaysIn links.old place result }
    ensures colours { ClimbsRed links.old links.new place result }
    ensures stops { StopsRed links.new result }
{
    let mut at = place;
    loop {
        let up = link_at(links, at).parent;
        let top = link_at(links, up).parent;
        let uncle = sibling(links, top, up);
        if !is_red(links, up) || !is_red(links, uncle) || uncle == up {
            return at;
        }
        paint(links, up, false);
        paint(links, uncle, false);
        paint(links, top, true);
        at = top;
    }
}

// Where the red `at` is the inner kid of its red parent `up`, it comes up in its place, so that the
// two stand in a line outside; returns the root.
fn line_up(links: &mut [Link], root: u32, at: u32, up: u32, right: bool) -> u32
    ensures keeps { KeepsOrder links.old links.new root result up }
    ensures colours { LinesUp links.old links.new root at up right }
{
    if kid(link_at(links, up), !right) == at {
        rotate(links, root, up, right)
    } else {
        root
    }
}

// Balances the tree after the red `place` came in; returns the root.
pub(crate) fn balance_insert(links: &mut [Link], root: u32, place: u32) -> u32
    ensures keeps { KeepsOrder links.old links.new root result place }
    ensures colours { BalancesRed links.old links.new root place }
{
    let at = climb_red(links, place);
    let up = link_at(links, at).parent;
    if up == NONE {
        paint(links, at, false);
        return root;
    }
    if !is_red(links, up) {
        return root;
    }
    let top = link_at(links, up).parent;
    let right = link_at(links, top).left != up;
    let lined_root = line_up(links, root, at, up, right);
    let middle = kid(link_at(links, top), right);
    paint(links, middle, false);
    paint(links, top, true);
    rotate(links, lined_root, top, !right)
}

// Whether both kids of `place` are black.
fn has_black_kids(links: &[Link], place: u32) -> bool
    ensures { IsTrue result ↔ HasBlackKids links.now place }
{
    let of = link_at(links, place);
    !is_red(links, of.left) && !is_red(links, of.right)
}

// Whether `at` below `up`, its sibling `other` and both kids of that are black places. In a tree the
// sibling is a place; the test says so to the proof that the loop below ends.
fn goes_up(links: &[Link], at: u32, up: u32, other: u32) -> bool
    ensures { IsTrue result ↔ GoesUp links.now at up other }
{
    !is_red(links, at)
        && up != NONE
        && (other as usize) < links.len()
        && !is_red(links, other)
        && has_black_kids(links, other)
}

// Paints upwards from a place below `above` that lacks a black one, while its sibling is black and
// has black kids; returns where that ends.
fn climb_black(links: &mut [Link], place: u32, above: u32) -> (u32, u32)
    ensures same_tree { SameTree links.old links.new }
    ensures inside { StaysIn links.old above result.1 }
    ensures colours { ClimbsShort links.old links.new place above result.0 result.1 }
    ensures stops { ¬ GoesUp links.new result.0 result.1
        (sibling_of (link links.new result.1) result.0) }
{
    let mut at = place;
    let mut up = above;
    loop {
        let other = sibling(links, up, at);
        if !goes_up(links, at, up, other) {
            return (at, up);
        }
        paint(links, other, true);
        at = up;
        up = link_at(links, at).parent;
    }
}

// Where the far kid of the black `other` is black too, its red near kid comes up in its place;
// returns the root.
fn straighten(links: &mut [Link], root: u32, other: u32, right: bool) -> u32
    ensures keeps { KeepsOrder links.old links.new root result other }
    ensures colours { Straightens links.old links.new root other right }
{
    let of = link_at(links, other);
    if is_red(links, kid(of, !right)) {
        return root;
    }
    paint(links, kid(of, right), false);
    paint(links, other, true);
    rotate(links, root, other, !right)
}

// The last rotations below `up`, whose kid on the side `right` lacks a black place, where the other
// kid is black and has a red kid; returns the root.
fn rotate_up(links: &mut [Link], root: u32, up: u32, right: bool) -> u32
    ensures keeps { KeepsOrder links.old links.new root result up }
    ensures colours { RotatesUp links.old links.new root up right }
{
    let other = kid(link_at(links, up), !right);
    let straight_root = straighten(links, root, other, right);
    let rising = kid(link_at(links, up), !right);
    let far = kid(link_at(links, rising), !right);
    let red = is_red(links, up);
    paint(links, rising, red);
    paint(links, up, false);
    paint(links, far, false);
    rotate(links, straight_root, up, right)
}

// Balances the tree where `place` (or none) below `above` lacks a black place; returns the root.
pub(crate) fn balance_take(links: &mut [Link], root: u32, place: u32, above: u32) -> u32
    ensures keeps { KeepsOrder links.old links.new root result above }
    ensures colours { BalancesShort links.old links.new root place above }
{
    let (at, up) = climb_black(links, place, above);
    if is_red(links, at) || up == NONE {
        paint(links, at, false);
        return root;
    }
    let right = link_at(links, up).left != at;
    let other = kid(link_at(links, up), !right);
    if !is_red(links, other) {
        return rotate_up(links, root, up, right);
    }
    paint(links, other, false);
    paint(links, up, true);
    let turned_root = rotate(links, root, up, right);
    let near = kid(link_at(links, up), !right);
    if has_black_kids(links, near) {
        paint(links, near, true);
        paint(links, up, false);
        return turned_root;
    }
    rotate_up(links, turned_root, up, right)
}
