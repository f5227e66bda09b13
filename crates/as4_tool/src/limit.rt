//! The longest input of a command.

/// The longest input, in bytes.
pub const LIMIT: usize = 67_174_400;

const _: () = prove!(LIMIT == 67174400);
