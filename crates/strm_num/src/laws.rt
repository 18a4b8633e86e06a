//! Laws of the definitions. These functions do nothing: their contracts are the laws, which specs/Promises tells.

ghost use Rattle.strm_num.specs.Promises.{QuotientsAreThoseOfMagnitudes};
ghost use Rattle.strm_num.specs.Promises.{RemaindersAreThoseOfMagnitudes, QuotientsAreWords};
ghost use Rattle.strm_num.specs.Promises.{RemaindersAreWords, MagnitudesAreWords};
ghost use Rattle.strm_num.specs.Promises.{MagnitudesAreZeroAtZeroAlone, SignedOrderFlipsSignBits};

pub fn signed_division_divides_magnitudes()
    ensures quotient { QuotientsAreThoseOfMagnitudes }
    ensures remainder { RemaindersAreThoseOfMagnitudes }
    ensures quotient_word { QuotientsAreWords }
    ensures remainder_word { RemaindersAreWords }
    ensures magnitude_word { MagnitudesAreWords }
    ensures magnitude_not_zero { MagnitudesAreZeroAtZeroAlone }
{}

pub fn signed_order_flips_sign_bits()
    ensures { SignedOrderFlipsSignBits }
{}
