//! The nodes' neighbours, and the steps that change which node stands where.

ghost use Rattle.std.specs.Prelude.{◌≡◌, slice_set};
ghost use Rattle.bm_tree.specs.Links.{none, link, kid_of, only_kid_of, set_kid, set_up, lifted, relinked, new_root};
ghost use Rattle.bm_tree.specs.Shape.{Rooted};
ghost use Rattle.bm_tree.specs.Steps.{KeepsOrder, Attaches, Splices, Substitutes, IsLeftmost};
ghost use Rattle.bm_tree.specs.Turning.{Turns};
ghost use Rattle.bm_tree.specs.Balancing.{Reddens, SplicesColours, SubstitutesColours};

// No place.
pub(crate) const NONE: u32 = u32::MAX;

// The neighbours of a place, and its colour.
#[derive(Clone, Copy)]
pub(crate) struct Link {
    pub(crate) left: u32,
    pub(crate) right: u32,
    pub(crate) parent: u32,
    pub(crate) red: bool,
}

// What stands at no place: black, with no neighbours.
pub(crate) const NIL: Link = Link {
    left: NONE,
    right: NONE,
    parent: NONE,
    red: false,
};

pub(crate) fn link_at(links: &[Link], place: u32) -> Link
    ensures { result ≡ link links.now place }
{
    if (place as usize) < links.len() {
        links[place as usize]
    } else {
        NIL
    }
}

pub(crate) fn put(links: &mut [Link], place: u32, to: Link)
    ensures { links.new ≡ slice_set links.old place to }
{
    if (place as usize) < links.len() {
        links[place as usize] = to;
    }
}

pub(crate) fn kid(of: Link, right: bool) -> u32
    ensures { result ≡ kid_of of right }
{
    if right { of.right } else { of.left }
}

pub(crate) fn with_kid(of: Link, right: bool, to: u32) -> Link
    ensures { result ≡ set_kid of right to }
{
    if right {
        Link {
            left: of.left,
            right: to,
            parent: of.parent,
            red: of.red,
        }
    } else {
        Link {
            left: to,
            right: of.right,
            parent: of.parent,
            red: of.red,
        }
    }
}

pub(crate) fn with_parent(of: Link, parent: u32) -> Link
    ensures { result ≡ set_up of parent }
{
    Link {
        left: of.left,
        right: of.right,
        parent,
        red: of.red,
    }
}

// The root once `young` stands below `up`, or at the root.
fn root_after(root: u32, up: u32, young: u32) -> u32
    ensures { result ≡ new_root root up young }
{
    if up == NONE { young } else { root }
}

// `young` stands where `old` stood below `up`, or at the root; returns the root.
pub(crate) fn replace(links: &mut [Link], root: u32, up: u32, old: u32, young: u32) -> u32
    ensures links { links.new ≡ relinked links.old up old young }
    ensures root { result ≡ new_root root up young }
{
    let above = link_at(links, up);
    put(links, up, with_kid(above, above.left != old, young));
    root_after(root, up, young)
}

pub(crate) fn set_parent(links: &mut [Link], place: u32, parent: u32)
    ensures { links.new ≡ lifted links.old place parent }
{
    let link = link_at(links, place);
    put(links, place, with_parent(link, parent));
}

// `at` goes down to the side `right`, and its kid of the other side, if there is one, comes up; returns the root.
pub(crate) fn rotate(links: &mut [Link], root: u32, at: u32, right: bool) -> u32
    ensures turns { Turns links.old links.new root at right }
    ensures keeps { KeepsOrder links.old links.new root result at }
{
    let low = link_at(links, at);
    let rising = kid(low, !right);
    if rising == NONE {
        return root;
    }
    let high = link_at(links, rising);
    let inner = kid(high, right);
    put(links, at, with_parent(with_kid(low, !right, inner), rising));
    put(
        links,
        rising,
        with_parent(with_kid(high, right, at), low.parent),
    );
    set_parent(links, inner, at);
    replace(links, root, low.parent, at, rising)
}

// Hangs `place` below `up`, on a side where nothing stands, or at the root; returns the root.
pub(crate) fn attach(links: &mut [Link], root: u32, up: u32, right: bool, place: u32) -> u32
    ensures order { Attaches links.old links.new root result up place right }
    ensures colours { Reddens links.old links.new root up place right }
{
    put(
        links,
        place,
        Link {
            left: NONE,
            right: NONE,
            parent: up,
            red: true,
        },
    );
    let above = link_at(links, up);
    put(links, up, with_kid(above, right, place));
    root_after(root, up, place)
}

// The kid of a node that has at most one.
pub(crate) fn only_kid(of: Link) -> u32
    ensures { result ≡ only_kid_of of }
{
    if of.left == NONE { of.right } else { of.left }
}

// Takes out `place`, which has at most one kid; that kid comes up. Returns the root.
pub(crate) fn splice(links: &mut [Link], root: u32, place: u32) -> u32
    ensures order { Splices links.old links.new root result place }
    ensures colours { SplicesColours links.old links.new root place }
{
    let gone = link_at(links, place);
    let rising = only_kid(gone);
    set_parent(links, rising, gone.parent);
    replace(links, root, gone.parent, place, rising)
}

// `young`, which stands nowhere, stands where `old` stood; returns the root.
pub(crate) fn substitute(links: &mut [Link], root: u32, old: u32, young: u32) -> u32
    ensures order { Substitutes links.old links.new root result old young }
    ensures colours { SubstitutesColours links.old links.new root old young }
{
    let was = link_at(links, old);
    put(links, young, was);
    set_parent(links, was.left, young);
    set_parent(links, was.right, young);
    replace(links, root, was.parent, old, young)
}

// The leftmost place at or below `from`.
pub(crate) fn leftmost(links: &[Link], from: u32) -> u32
    requires { Rooted links.now from }
    ensures first { IsLeftmost links.now from result }
    ensures ends { (link links.now result).left ≡ none }
{
    let mut at = from;
    loop {
        let next = link_at(links, at).left;
        if next == NONE {
            return at;
        }
        at = next;
    }
}
