// What the calls that are computed here are in the model.
ghost use Rattle.single_part.specs.Laws.{DrawsAVector, DrawsOnSuccess, HashCallsAreTheModels, HashCallsRead, KeyedCallsAreTheModels, KeyedCallsRead};

/// Where a call's key isn't the secure element's, or the element doesn't compute such calls, the call is the model's: the first
/// refusal of the key's use, and else what is computed with the key's bytes.
pub fn keyed_calls_are_the_models()
    ensures { KeyedCallsAreTheModels }
{}

/// A call that computes with a key reads that key, and changes none.
pub fn keyed_calls_read()
    ensures { KeyedCallsRead }
{}

/// A call that computes with a key draws an initialisation vector where it takes one and succeeds, and else nothing.
pub fn keyed_calls_draw()
    ensures few { DrawsAVector }
    ensures exact { DrawsOnSuccess }
{}

/// A hash of a message is the model's. It reads no key, and changes none.
pub fn hash_calls_are_the_models()
    ensures replies { HashCallsAreTheModels }
    ensures reads { HashCallsRead }
{}
