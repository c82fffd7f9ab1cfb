//! The keys that are known by their numbers.

ghost use Rattle.yd_v2.specs.KnownView.{IsKeyOf, keys_of};

/// The key of a number, if one is known.
#[tactic(auto, using(crate::proofs::KnownLemmas::key_within, crate::proofs::KnownLemmas::key_past))]
pub fn key_of<'a>(known: &[&'a str], number: u64) -> Option<&'a str>
    ensures { IsKeyOf (keys_of known.now) number result }
{
    if number >= known.len() as u64 {
        return None;
    }
    Some(known[number as usize])
}
