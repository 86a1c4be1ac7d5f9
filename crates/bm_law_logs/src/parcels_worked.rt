//! Worked logs of parcels that come and leave, and wrong ones beside them.

ghost use Rattle.std.specs.Prelude.{◌∷◌, []};
ghost use Rattle.bm_law.specs.Inboxes.{Inboxes};
ghost use Rattle.bm_law_scenario.specs.Parcels.{no_parcels};
ghost use Rattle.bm_law_logs.specs.LeavesParcels.{LeavesParcels};
ghost use Rattle.bm_law_logs.specs.WorkedInboxes.{newer_first, none_received, older_first, received_back, sent_away, two_sent, unit_received, waiting};

/// The parcels that logs leave, computed: one that a processor sends itself is received; of two the older one comes first, and
/// the newer one is left. Refused are the newer one of two, a unit where no parcel waits, none where one waits, a parcel to a
/// processor that there isn't, and parcels that were sent and are not left.
pub fn worked_inboxes()
    ensures received { LeavesParcels received_back no_parcels }
    ensures older { LeavesParcels older_first (waiting ((512 ∷ []) ∷ [])) }
    ensures newer { (boxes : Inboxes) → ¬ LeavesParcels newer_first boxes }
    ensures unit { (boxes : Inboxes) → ¬ LeavesParcels unit_received boxes }
    ensures none { (boxes : Inboxes) → ¬ LeavesParcels none_received boxes }
    ensures nobody { (boxes : Inboxes) → ¬ LeavesParcels sent_away boxes }
    ensures kept { ¬ LeavesParcels two_sent no_parcels }
{}
