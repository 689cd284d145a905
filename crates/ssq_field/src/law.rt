//! What the kinds of fields have in common.

ghost use Rattle.std.specs.Prelude.{decimal};
ghost use Rattle.std.specs.Int.{w32, w64, to_be_bytes};
ghost use Rattle.ssq_field.specs.Field.{AreApart, Anything, Fits32, Fits64, Fits128, twos_complement};
ghost use Rattle.ssq_field.specs.Decimal.{NoDigit};

/// The law of fields: each value has one spelling, and none before what may follow it is another's. So what was
/// put is taken again, whatever follows that may.
#[tactic(auto, unfolding(crate::specs::Field::twos_complement))]
pub fn fields_are_apart()
    ensures decimals { AreApart decimal Fits64 NoDigit }
    ensures of_4_bytes { AreApart (to_be_bytes w32) Fits32 Anything }
    ensures of_8_bytes { AreApart (to_be_bytes w64) Fits64 Anything }
    ensures of_16_bytes { AreApart twos_complement Fits128 Anything }
{}
