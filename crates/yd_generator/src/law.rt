//! The law of the generator, the contract of an empty function.

ghost use Rattle.yd_generator.specs.Law.{GenerationsConverge};

/// Behind each number of steps what is held keeps the edit rules, and at the end the three replicas
/// have one text, one state vector and one delete set.
pub fn generations_converge()
    ensures { GenerationsConverge }
{}
