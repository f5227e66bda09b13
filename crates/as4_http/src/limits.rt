//! The limits: how large the parts of a message are at most, and how far past a message a source is read.

/// Bytes of a head: the empty lines before it, the start line, the fields and the empty line after them.
pub const MAX_HEAD: usize = 65_536;

const _: () = prove!(MAX_HEAD == 65536);

/// Fields of a head.
pub const MAX_FIELDS: usize = 128;

const _: () = prove!(MAX_FIELDS == 128);

/// Bytes of the line before a chunk, with its CRLF.
pub const MAX_CHUNK_LINE: usize = 1_024;

const _: () = prove!(MAX_CHUNK_LINE == 1024);

/// Bytes of the trailers: the fields after the last chunk, and the empty line after them.
pub const MAX_TRAILERS: usize = 65_536;

const _: () = prove!(MAX_TRAILERS == 65536);

/// Bytes of a body, its chunks joined.
pub const MAX_BODY: usize = 67_108_864;

const _: () = prove!(MAX_BODY == 67108864);

/// Bytes that a read of the source takes at most, while the message doesn't say how many it still needs. So a source
/// is read past a message by less than this.
pub const MAX_PIECE: usize = 131_072;

const _: () = prove!(MAX_PIECE == 131072);
