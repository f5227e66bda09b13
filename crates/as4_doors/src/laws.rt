//! Laws of what requests ask for and of responses.

ghost use Rattle.std.specs.Prelude.{◌≡◌, ℕ, Bool, List};
ghost use Rattle.as4_http.specs.declared.message.Request.{Request};
ghost use Rattle.as4_message.specs.declared.received.Refusal.{Refusal};
ghost use Rattle.exchange_model.specs.declared.reply.Reply.{Reply};
ghost use Rattle.exchange_model.specs.declared.what.What.{What};
ghost use Rattle.as4_doors.specs.Asking.{AsksFor, IsRefusedBy, IsStranger};
ghost use Rattle.as4_doors.specs.Responses.{IsRefusalResponse, IsResponse};
ghost use Rattle.as4_doors.specs.declared.door.DoorKind.{DoorKind};

/// A request asks for one thing at most at a door.
pub fn one_request()
    ensures { (door : DoorKind) (request : Request) (one other : What) → AsksFor door request one → AsksFor door request other → one ≡ other }
{}

/// A request that isn't one of a door asks for nothing there, and isn't refused there with an error signal.
pub fn strangers_ask_nothing()
    ensures asks { (door : DoorKind) (request : Request) (what : What) → IsStranger door request → ¬ (AsksFor door request what) }
    ensures refused { (door : DoorKind) (request : Request) (refusal : Refusal) → IsStranger door request → ¬ (IsRefusedBy door request refusal) }
{}

/// A request that is refused asks for nothing.
pub fn refused_or_asked()
    ensures { (door : DoorKind) (request : Request) (refusal : Refusal) (what : What) → IsRefusedBy door request refusal → ¬ (AsksFor door request what) }
{}

/// A request is refused with one error at most.
pub fn one_refusal()
    ensures { (door : DoorKind) (request : Request) (one other : Refusal) → IsRefusedBy door request one → IsRefusedBy door request other → one ≡ other }
{}

/// A reply has one response, byte for byte, and so has a refusal at one moment with one nonce.
pub fn one_response()
    ensures response { (kept : Bool) (reply : Reply) (one other : List ℕ) → IsResponse kept reply one → IsResponse kept reply other → one ≡ other }
    ensures refused { (kept : Bool) (refusal : Refusal) (moment nonce : ℕ) (one other : List ℕ) → IsRefusalResponse kept refusal moment nonce one
        → IsRefusalResponse kept refusal moment nonce other → one ≡ other }
{}
