//! Wrong services, actions, agreements, retries, periods and collections of P-Modes.
use super::{Row, Said, first_other};
use pmodes::Key;

const WRONG_TEXTS: [Row; 11] = [
    ("service", "", Said::Missing(0, Key::Service)),
    ("service", "service = \"\"", Said::Range(0, Key::Service)),
    (
        "service",
        "service = \"\\u0001\"",
        Said::Range(0, Key::Service),
    ),
    ("", "service_type = 1", Said::Range(0, Key::ServiceType)),
    ("action", "", Said::Missing(0, Key::Action)),
    ("action", "action = true", Said::Range(0, Key::Action)),
    ("", "agreement = \"\"", Said::Range(0, Key::Agreement)),
    ("", "agreement = 2025-01-02", Said::Range(0, Key::Agreement)),
    (
        "",
        "agreement_type = \"t\"",
        Said::Range(0, Key::AgreementType),
    ),
    ("", "agreement_type = 1", Said::Range(0, Key::AgreementType)),
    (
        "",
        "agreement = \"g\"\nagreement_type = 1",
        Said::Range(0, Key::AgreementType),
    ),
];

#[test]
fn a_service_and_an_agreement_are_texts(rt: HostRuntime) {
    let other = first_other(rt.alloc(), &WRONG_TEXTS);
    assert_eq!(rt; other, None);
}

const WRONG_NUMBERS: [Row; 13] = [
    ("retries", "", Said::Missing(0, Key::Retries)),
    ("retries", "retries = 1001", Said::Range(0, Key::Retries)),
    ("retries", "retries = -1", Said::Range(0, Key::Retries)),
    ("retries", "retries = 1.0", Said::Range(0, Key::Retries)),
    ("retries", "retries = \"3\"", Said::Range(0, Key::Retries)),
    ("period", "", Said::Missing(0, Key::Period)),
    ("period", "period = 0", Said::Range(0, Key::Period)),
    ("period", "period = 1000000001", Said::Range(0, Key::Period)),
    ("period", "period = true", Said::Range(0, Key::Period)),
    ("", "collect = 1", Said::Range(0, Key::Collect)),
    ("", "collect = \"true\"", Said::Range(0, Key::Collect)),
    ("", "collect = true", Said::Range(0, Key::Collect)),
    (
        "push",
        "pull = \"c\"\naddress = \"http://h\"\ncollect = 0",
        Said::Range(0, Key::Collect),
    ),
];

#[test]
fn numbers_have_their_range(rt: HostRuntime) {
    let other = first_other(rt.alloc(), &WRONG_NUMBERS);
    assert_eq!(rt; other, None);
}
