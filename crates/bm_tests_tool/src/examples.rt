//! The scenarios of examples/ with their journals, as tools/examples_to_tests.py writes them. Where the journals are from is
//! told in examples/README.md.

pub(crate) mod busy_handler;
pub(crate) mod counted_object;
pub(crate) mod deferred_block;
pub(crate) mod empty_stock;
pub(crate) mod fields_read;
pub(crate) mod frees_within_frees;
pub(crate) mod held_by_a_plain_section;
pub(crate) mod held_by_a_tracing_section;
pub(crate) mod list_hand_over;
pub(crate) mod nested_blocks;
pub(crate) mod nested_handlers;
pub(crate) mod one_object;
pub(crate) mod refill_handlers;
pub(crate) mod refused_push;
pub(crate) mod second_reference;
pub(crate) mod sleepable_script;
pub(crate) mod sleepable_wait;
pub(crate) mod slot_hand_over;
pub(crate) mod slot_left_full;
pub(crate) mod tree_with_equal_keys;
pub(crate) mod two_classes;
pub(crate) mod two_scripts;

/// Scenarios, each with its journal.
pub(crate) const EXAMPLES: &[(&str, &str)] = &[
    (busy_handler::SCENARIO, busy_handler::JOURNAL),
    (counted_object::SCENARIO, counted_object::JOURNAL),
    (deferred_block::SCENARIO, deferred_block::JOURNAL),
    (empty_stock::SCENARIO, empty_stock::JOURNAL),
    (fields_read::SCENARIO, fields_read::JOURNAL),
    (frees_within_frees::SCENARIO, frees_within_frees::JOURNAL),
    (
        held_by_a_plain_section::SCENARIO,
        held_by_a_plain_section::JOURNAL,
    ),
    (
        held_by_a_tracing_section::SCENARIO,
        held_by_a_tracing_section::JOURNAL,
    ),
    (list_hand_over::SCENARIO, list_hand_over::JOURNAL),
    (nested_blocks::SCENARIO, nested_blocks::JOURNAL),
];

/// More scenarios, each with its journal.
pub(crate) const MORE_EXAMPLES: &[(&str, &str)] = &[
    (nested_handlers::SCENARIO, nested_handlers::JOURNAL),
    (one_object::SCENARIO, one_object::JOURNAL),
    (refill_handlers::SCENARIO, refill_handlers::JOURNAL),
    (refused_push::SCENARIO, refused_push::JOURNAL),
    (second_reference::SCENARIO, second_reference::JOURNAL),
    (sleepable_script::SCENARIO, sleepable_script::JOURNAL),
    (sleepable_wait::SCENARIO, sleepable_wait::JOURNAL),
    (slot_hand_over::SCENARIO, slot_hand_over::JOURNAL),
    (slot_left_full::SCENARIO, slot_left_full::JOURNAL),
    (
        tree_with_equal_keys::SCENARIO,
        tree_with_equal_keys::JOURNAL,
    ),
];

/// Other scenarios, each with its journal.
pub(crate) const OTHER_EXAMPLES: &[(&str, &str)] = &[
    (two_classes::SCENARIO, two_classes::JOURNAL),
    (two_scripts::SCENARIO, two_scripts::JOURNAL),
];
