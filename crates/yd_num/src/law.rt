//! The laws of the grammar, of reading it and of writing it, each the contract of an empty function.

ghost use Rattle.yd_num.specs.Law.{FieldsAreRead, FaultsAreExact, WrittenIsRead, WrittenIsShortest, SpelledIsOne};

/// What is read is what the grammar spells, and all that it spells is read.
pub fn fields_are_read()
    ensures { FieldsAreRead }
{}

/// Each fault comes for exactly the bytes that have it.
pub fn faults_are_exact()
    ensures { FaultsAreExact }
{}

/// What is written spells its value, and is read again whatever follows.
pub fn written_is_read()
    ensures { WrittenIsRead }
{}

/// What is written is as short as any bytes that spell the value.
pub fn written_is_shortest()
    ensures { WrittenIsShortest }
{}

/// No bytes spell two values.
pub fn spelled_is_one()
    ensures { SpelledIsOne }
{}
