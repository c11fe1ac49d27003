// Why a station or a net refuses a call (document 01, "Causes and numbers").
#![tactic(auto)]

ghost use Rattle.std.specs.Prelude.{◌≡◌};
ghost use Rattle.refusal.specs.Refusal.{number_of};

#[derive(Clone, Copy, Debug, PartialEq, Eq)]
pub enum Refusal {
    // The net or station is not well-formed (01: out of form).
    OutOfForm = 11,
    // The kind, the station number or the sum is out of range.
    OutOfRange = 12,
    // The step is not allowed.
    NotAllowed = 13,
    // A draw, where no step is allowed.
    NothingAllowed = 14,
}

// The number of a refusal.
pub fn number(r: Refusal) -> u8
    ensures { result ≡ number_of r }
{
    r as u8
}
