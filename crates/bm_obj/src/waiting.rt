//! Claims that wait for their entry in a graph's history.

ghost use Rattle.std.specs.Prelude.{◌≡◌};
ghost use Rattle.bm_obj.specs.Waits.{after_claim, after_unclaim};

use bm_journal::ObjId;

/// A change of an object's owner that waits for its entry in the history of the graph.
#[derive(Clone, Copy, Debug, PartialEq, Eq)]
pub enum Waiting {
    /// The graph claimed the object and won; the entry will be a push or an addition.
    Claim(ObjId),
    /// The graph's claim of the object was ended; the entry will be a pop or a removal.
    Unclaim(ObjId),
}

/// What waits once a graph has won the claim of an object. Where the end of a claim waited, the two end each other.
pub(crate) fn waiting_after_claim(before: Option<Waiting>, id: ObjId) -> Option<Waiting>
    ensures { result ≡ after_claim id before }
{
    match before {
        Some(Waiting::Unclaim(_)) => None,
        Some(Waiting::Claim(_)) | None => Some(Waiting::Claim(id)),
    }
}

/// What waits once a graph's claim of an object was ended. Where the claim itself waited, the two end each other.
pub(crate) fn waiting_after_unclaim(before: Option<Waiting>, id: ObjId) -> Option<Waiting>
    ensures { result ≡ after_unclaim id before }
{
    match before {
        Some(Waiting::Claim(_)) => None,
        Some(Waiting::Unclaim(_)) | None => Some(Waiting::Unclaim(id)),
    }
}
