//! What `check` and `show` print for the examples, as in their files.

/// The text of `check` for the example `plan-file`.
pub(super) const PLAN_FILE_ANSWER: &str = r#"ok bridges 2 links 1 services 2 ports 4
forest yes
"#;

/// The text of `show`.
pub(super) const SHOWN: &str = r#"01-80-C2-00-00-00 carry
01-80-C2-00-00-01 filter
01-80-C2-00-00-02 filter
01-80-C2-00-00-03 filter
01-80-C2-00-00-04 filter
01-80-C2-00-00-05 filter
01-80-C2-00-00-06 filter
01-80-C2-00-00-07 filter
01-80-C2-00-00-08 provider
01-80-C2-00-00-09 filter
01-80-C2-00-00-0A filter
01-80-C2-00-00-0B carry
01-80-C2-00-00-0C carry
01-80-C2-00-00-0D carry
01-80-C2-00-00-0E filter
01-80-C2-00-00-0F carry
"#;
