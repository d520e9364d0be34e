// What the calls that the element computes are in the model.
ghost use Rattle.secure_element_calls.specs.Replies.{AsksDevice, RepliesAreTheModels};

/// The rows of a call's key and of the call, and what is computed with the key's bytes, are the model's reply; and where no row
/// of either refuses, the model says that the element is asked.
pub fn replies_are_the_models()
    ensures replies { RepliesAreTheModels }
    ensures asks { AsksDevice }
{}
