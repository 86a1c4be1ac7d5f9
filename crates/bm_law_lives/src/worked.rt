//! Worked journals for the laws of all logs, and wrong ones beside them.

ghost use Rattle.bm_law_lives.specs.Lives.{LivesLaw, WholeLives};
ghost use Rattle.bm_law_lives.specs.Returns.{ReturnsLaw};
ghost use Rattle.bm_law_lives.specs.GraceLaw.{GraceLaw, WholeGrace};
ghost use Rattle.bm_law_lives.specs.StampLaw.{StampLaw};
ghost use Rattle.bm_law_lives.specs.Worked.{one_block, both_stages, two_processors, swept_from_inbox, sleepable_reader, waits_for_next, interrupted};
ghost use Rattle.bm_law_lives.specs.Wrong.{begins_even, begun_beside, begun_by_both, begun_within, domains_apart, ended_by_other, ended_twice, ends_in_section, ends_odd, first_never_named, given_twice, left_out, never_ended, never_given, never_received, never_returned, no_seal, not_ended, not_freed, not_stamped, number_left_out, odd_stamp, one_word_alone, other_batch, other_class_received, other_domain_seen, other_freed, other_home, other_number, other_own_first, other_own_later, other_returned, other_stamp, other_swept, plain_words_alone, received_by_other, received_twice, returned_before_pass, returned_too_early, returned_twice, sealed_though_plain, section_forgotten, seen_above, sent_to_nobody, sent_too_early, sent_unseen, stamped_as_seen, stamped_within, word_jumps, word_never_named};

/// Lives that fit: of a block that is made and dropped; of a unit that is freed with delay and goes through both stages; of
/// one that another processor frees with delay; and, as long as the journal isn't whole, one that has not ended. Refused: life
/// 1 given twice, life 2 left out, a life that ends twice, the free of another unit behind `last`, no free there, another home,
/// and a life that ends and that nobody gave; and in a whole journal a life that doesn't end.
pub fn worked_lives()
    ensures one_block { WholeLives one_block }
    ensures both_stages { WholeLives both_stages }
    ensures two_processors { WholeLives two_processors }
    ensures unended { LivesLaw never_ended }
    ensures given_twice { ¬ LivesLaw given_twice }
    ensures left_out { ¬ LivesLaw left_out }
    ensures ended_twice { ¬ LivesLaw ended_twice }
    ensures other_freed { ¬ LivesLaw other_freed }
    ensures not_freed { ¬ LivesLaw not_freed }
    ensures other_home { ¬ LivesLaw other_home }
    ensures never_given { ¬ LivesLaw never_given }
    ensures never_ended { ¬ WholeLives never_ended }
{}

/// Returns that fit: of the three journals of `worked_lives`, and of one in which a sweep takes a parcel out of the inbox.
/// Refused: a unit that isn't returned, one that is returned twice, and another one returned; a parcel that another processor
/// receives, that nobody receives, and that is received twice or in another class; a sweep that takes another one; and a parcel
/// to a processor that isn't there.
pub fn worked_returns()
    ensures one_block { ReturnsLaw one_block }
    ensures both_stages { ReturnsLaw both_stages }
    ensures two_processors { ReturnsLaw two_processors }
    ensures swept_from_inbox { ReturnsLaw swept_from_inbox }
    ensures never_returned { ¬ ReturnsLaw never_returned }
    ensures returned_twice { ¬ ReturnsLaw returned_twice }
    ensures other_returned { ¬ ReturnsLaw other_returned }
    ensures received_by_other { ¬ ReturnsLaw received_by_other }
    ensures never_received { ¬ ReturnsLaw never_received }
    ensures received_twice { ¬ ReturnsLaw received_twice }
    ensures other_class_received { ¬ ReturnsLaw other_class_received }
    ensures other_swept { ¬ ReturnsLaw other_swept }
    ensures sent_to_nobody { ¬ ReturnsLaw sent_to_nobody }
{}

/// Grace periods that fit: of the three journals of `worked_lives`, and of one that waits for a sleepable script with a section
/// in it; and, as long as the journal isn't whole, one that has not ended. Refused: an end where each word was seen once, and
/// one of them odd; a word that its processor never had, later or at first; another word of the processor that ends the period,
/// at first or later; and a word left out. A tracing period that forgets a plain section, that looks at the plain words alone,
/// and that names the domains apart. A number that two processors begin; one that is begun before the one before has ended, on
/// another processor and on the same; an end in another log; and a number left out. A section's word that jumps, that is even
/// where a section begins, and odd where one ends. And in a whole journal a period that doesn't end.
pub fn worked_grace()
    ensures one_block { WholeGrace one_block }
    ensures both_stages { WholeGrace both_stages }
    ensures two_processors { WholeGrace two_processors }
    ensures sleepable_reader { WholeGrace sleepable_reader }
    ensures unended { GraceLaw not_ended }
    ensures ends_in_section { ¬ GraceLaw ends_in_section }
    ensures word_never_named { ¬ GraceLaw word_never_named }
    ensures first_never_named { ¬ GraceLaw first_never_named }
    ensures other_own_first { ¬ GraceLaw other_own_first }
    ensures other_own_later { ¬ GraceLaw other_own_later }
    ensures one_word_alone { ¬ GraceLaw one_word_alone }
    ensures section_forgotten { ¬ GraceLaw section_forgotten }
    ensures plain_words_alone { ¬ GraceLaw plain_words_alone }
    ensures domains_apart { ¬ GraceLaw domains_apart }
    ensures begun_by_both { ¬ GraceLaw begun_by_both }
    ensures begun_beside { ¬ GraceLaw begun_beside }
    ensures ended_by_other { ¬ GraceLaw ended_by_other }
    ensures begun_within { ¬ GraceLaw begun_within }
    ensures number_left_out { ¬ GraceLaw number_left_out }
    ensures word_jumps { ¬ GraceLaw word_jumps }
    ensures begins_even { ¬ GraceLaw begins_even }
    ensures ends_odd { ¬ GraceLaw ends_odd }
    ensures not_ended { ¬ WholeGrace not_ended }
{}

/// Stamps that fit: of the three journals of `worked_lives`; one that is taken within a period; and a batch that is sent behind
/// its pass with a handler in between. Refused: an odd stamp; one that is too low, within a period and after one; and a number
/// seen that no period has. A unit that was freed with delay and is given again without a seal, with another stamp or number,
/// with its batch sent too early, and with its batch sent where no number was seen; and a seal where the unit was freed
/// plainly. A return before its pass, behind one that saw too little, and behind one of the other domain; of a unit that wasn't
/// in the batch; and of a batch without a stamp.
pub fn worked_stamps()
    ensures one_block { StampLaw one_block }
    ensures both_stages { StampLaw both_stages }
    ensures two_processors { StampLaw two_processors }
    ensures waits_for_next { StampLaw waits_for_next }
    ensures interrupted { StampLaw interrupted }
    ensures odd_stamp { ¬ StampLaw odd_stamp }
    ensures stamped_within { ¬ StampLaw stamped_within }
    ensures stamped_as_seen { ¬ StampLaw stamped_as_seen }
    ensures seen_above { ¬ StampLaw seen_above }
    ensures no_seal { ¬ StampLaw no_seal }
    ensures other_stamp { ¬ StampLaw other_stamp }
    ensures other_number { ¬ StampLaw other_number }
    ensures sent_too_early { ¬ StampLaw sent_too_early }
    ensures sent_unseen { ¬ StampLaw sent_unseen }
    ensures sealed_though_plain { ¬ StampLaw sealed_though_plain }
    ensures returned_before_pass { ¬ StampLaw returned_before_pass }
    ensures returned_too_early { ¬ StampLaw returned_too_early }
    ensures other_domain_seen { ¬ StampLaw other_domain_seen }
    ensures other_batch { ¬ StampLaw other_batch }
    ensures not_stamped { ¬ StampLaw not_stamped }
{}
