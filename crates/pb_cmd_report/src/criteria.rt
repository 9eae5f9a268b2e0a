//! What counts as disconnected on the page.

use pb_cmd_survive::Criteria;

/// All customer ports count but those of a failed bridge, and every failure is in the report.
pub(crate) const CRITERIA: Criteria = Criteria {
    from: None,
    own: false,
    all: true,
    impaired: false,
};
