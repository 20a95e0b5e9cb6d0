//! What is proved of all texts of weights, each law carried by a function that does nothing.
ghost use Rattle.fvn_weights_reading.specs.Laws.{NumbersHaveNineDigits, WeightsAreDetermined, WeightFaultsAreDetermined, RefusedTextsWeighNothing};

/// A number has nine digits at most.
pub fn numbers_have_nine_digits()
    ensures { NumbersHaveNineDigits }
{}

/// A text gives one list of weights at most.
pub fn weights_are_determined()
    ensures { WeightsAreDetermined }
{}

/// But for want of memory, a text has one first fault at most.
pub fn weight_faults_are_determined()
    ensures { WeightFaultsAreDetermined }
{}

/// But for want of memory, a text that has a first fault gives no weights.
pub fn refused_texts_weigh_nothing()
    ensures { RefusedTextsWeighNothing }
{}
