//! Responses as they are written.

ghost use Rattle.std.specs.Prelude.{◌≡◌};
ghost use Rattle.as4_doors.specs.WrittenText.{status_of, fixed_text, written_text};

use as4_http::fixed_response;
use as4_values::Octets;

/// The responses that have no media text and no body, and whose connection closes after them. They take no memory.
#[derive(Clone, Copy, Debug, PartialEq, Eq)]
pub enum Fixed {
    /// 202
    Accepted,
    /// 400
    BadRequest,
    /// 413
    TooLarge,
    /// 503
    Unavailable,
}

/// A response.
#[derive(Drop)]
pub enum Written {
    Fixed(Fixed),
    /// The bytes of a response that was made.
    Made(Octets),
}

impl Fixed {
    fn status(self) -> u16
        ensures { result ≡ status_of self }
    {
        match self {
            Fixed::Accepted => 202,
            Fixed::BadRequest => 400,
            Fixed::TooLarge => 413,
            Fixed::Unavailable => 503,
        }
    }

    /// The bytes of this response.
    #[tactic(auto, unfolding(crate::specs::WrittenText::fixed_text))]
    pub fn bytes(self) -> &'static [u8]
        ensures { result.now ≡ fixed_text self }
    {
        fixed_response(self.status())
    }
}

impl Written {
    /// The bytes of the response.
    pub fn bytes(&self) -> &[u8]
        ensures { result.now ≡ written_text self.now }
    {
        match self {
            Written::Fixed(fixed) => fixed.bytes(),
            Written::Made(bytes) => bytes.bytes(),
        }
    }
}
