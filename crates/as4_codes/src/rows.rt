//! The table of errors.

ghost use Rattle.std.specs.Prelude.{◌≡◌, ◌≢◌, ◌==◌, find, map, All, AllPairs};
ghost use Rattle.std.specs.Option.{option_copied};
ghost use Rattle.as4_codes.specs.Rows.{row_of};
ghost use Rattle.as4_codes.specs.ErrorCodes.{error_row, error_table};

use as4_values::Severity;

/// The properties of an error (ebMS 3.0 Core, section 6.2): its code is sent as `EBMS:` and four decimal digits.
#[derive(Clone, Copy, Debug, PartialEq, Eq)]
pub struct Row {
    pub code: u16,
    pub short: &'static str,
    pub severity: Severity,
    pub category: &'static str,
}

/// The errors that this handler reports (ebMS 3.0 Core, section 6.7.1; AS4 Profile, section 3.6).
pub const TABLE: [Row; 10] = [
    Row {
        code: 1,
        short: "ValueNotRecognized",
        severity: Severity::Failure,
        category: "Content",
    },
    Row {
        code: 3,
        short: "ValueInconsistent",
        severity: Severity::Failure,
        category: "Content",
    },
    Row {
        code: 6,
        short: "EmptyMessagePartitionChannel",
        severity: Severity::Warning,
        category: "Communication",
    },
    Row {
        code: 7,
        short: "MimeInconsistency",
        severity: Severity::Failure,
        category: "Unpackaging",
    },
    Row {
        code: 8,
        short: "FeatureNotSupported",
        severity: Severity::Failure,
        category: "Unpackaging",
    },
    Row {
        code: 9,
        short: "InvalidHeader",
        severity: Severity::Failure,
        category: "Unpackaging",
    },
    Row {
        code: 10,
        short: "ProcessingModeMismatch",
        severity: Severity::Failure,
        category: "Processing",
    },
    Row {
        code: 11,
        short: "ExternalPayloadError",
        severity: Severity::Failure,
        category: "Content",
    },
    Row {
        code: 301,
        short: "MissingReceipt",
        severity: Severity::Failure,
        category: "Communication",
    },
    Row {
        code: 302,
        short: "InvalidReceipt",
        severity: Severity::Failure,
        category: "Communication",
    },
];

/// A reference to `TABLE`.
#[tactic(auto, unfolding(crate::specs::ErrorCodes::error_table))]
pub fn table() -> &'static [Row; 10]
    ensures { map row_of result.now ≡ error_table }
{
    &TABLE
}

/// The first row of this code; None exactly where no row has it.
pub fn find(table: &[Row], code: u16) -> Option<&Row>
    ensures { option_copied result ≡ find (λ row. row.code == code) table.now }
{
    table.iter().find(|row| row.code == code)
}

/// No two rows of the table have the same code, so looking up a row's code finds that row.
pub fn codes_differ()
    ensures differ { AllPairs (λ a b. a ≢ b) (map (λ row. row.code) error_table) }
    ensures found { All (λ row. error_row row.code ≡ Some row) error_table }
{}
