use crate::{law_next, law_passing};
use std::test::*;

// The laws hold of every index, every history and every event.
#[test]
fn laws() {
    law_next();
    law_passing();
}
