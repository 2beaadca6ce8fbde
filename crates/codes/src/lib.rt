// The numbers that C is handed: refusals, the figures of an accepted docket, and what the checks and the other calls return.
#![tactic(auto)]

ghost use Rattle.std.specs.Prelude.{◌≡◌, [], ◌∷◌};
ghost use Rattle.codes.specs.Codes.{code, call_code, check_code, answer_code};

use checker::Summary;
use refusals::Refusal;

// A refusal of the check: its number in front of 16 bits for its place.
pub fn check_refusal(r: Refusal) -> u64
    ensures { result ≡ code r }
{
    u64::from(r.number()) * 65536 + u64::from(r.place())
}

// A refusal of another call: its number in front of 32 bits for its place, which may be any 32-bit number.
pub fn call_refusal(r: Refusal) -> u64
    ensures { result ≡ call_code r }
{
    u64::from(r.number()) * 4294967296 + u64::from(r.place())
}

// S R L N W M of an accepted docket.
pub fn figures(f: Summary) -> [u64; 6]
    ensures { result ≡ f.states ∷ f.rules ∷ f.layers ∷ f.nodes ∷ f.spreads ∷ f.widest ∷ [] }
{
    [
        u64::from(f.states),
        u64::from(f.rules),
        u64::from(f.layers),
        u64::from(f.nodes),
        f.spreads,
        u64::from(f.widest),
    ]
}

// What the check returns, with or without a claim sheet: 0, or its refusal.
pub fn check_code<T: Drop>(a: Result<T, Refusal>) -> u64
    ensures { result ≡ check_code a }
{
    a.err().map_or(0, check_refusal)
}

// What another call returns: 0, or its refusal.
pub fn answer_code<T: Drop>(a: Result<T, Refusal>) -> u64
    ensures { result ≡ answer_code a }
{
    a.err().map_or(0, call_refusal)
}
