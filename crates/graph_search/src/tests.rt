use super::*;

// The laws need nothing.
#[test]
fn laws_of_searches() {
    law_batches();
    law_batches_by_holding();
    law_deeds();
    law_going_on();
    law_insert();
    law_insert_rules();
    law_no_entry();
    law_search();
    law_words();
    law_worked_batches();
    law_worked_insert();
    law_worked_reuse();
    law_worked_search();
    law_worked_search_of_one();
    law_worked_search_through();
    law_worked_third_insert();
}
