//! The law that connects `MARKED` with the number that the definitions name.
ghost use Rattle.std.specs.Prelude.{◌≡◌};
ghost use Rattle.gate_lanes.specs.Masks.{all_ones};
ghost use Rattle.gate_lanes.specs.declared.TheConstants.{MARKED};

/// The word of a marked row has a one in each of its 32 bits.
pub fn a_marked_word_is_all_ones()
    ensures { MARKED ≡ all_ones }
{}
