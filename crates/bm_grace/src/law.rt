//! The law of one grace period.

ghost use Rattle.std.specs.Prelude.{◌≡◌};
ghost use Rattle.bm_journal.specs.declared.ids.Domain.{Domain as DomainValue};
ghost use Rattle.bm_grace.specs.Known.{Known, side};
ghost use Rattle.bm_grace.specs.Answers.{CanFinish, ended};
ghost use Rattle.bm_grace.specs.Law.{IsGracePeriod};

/// The period that a `finish` hands out meets what the law of grace periods says of one period: its number is even and
/// one more than that of its `begin`, and each of its words was even when it was first looked at, or is greater later.
pub fn period_law()
    ensures { (domain : DomainValue) (known : Known) → CanFinish domain known →
        IsGracePeriod (side domain known).number (ended domain (side domain known)) }
{}
