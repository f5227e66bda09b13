//! The error codes of refusals (ebMS 3.0 Core, section 6.7.1).

/// MimeInconsistency: the body is not a package, or its parts don't fit the header.
pub(crate) const INCONSISTENT: u16 = 7;

const _: () = prove!(INCONSISTENT == 7);

/// FeatureNotSupported: the message needs something that isn't supported.
pub(crate) const NOT_SUPPORTED: u16 = 8;

const _: () = prove!(NOT_SUPPORTED == 8);

/// InvalidHeader: the root is not an envelope of a unit.
pub(crate) const INVALID_HEADER: u16 = 9;

const _: () = prove!(INVALID_HEADER == 9);

/// ExternalPayloadError: a payload is outside of the package.
pub(crate) const EXTERNAL: u16 = 11;

const _: () = prove!(EXTERNAL == 11);
