// Laws of the printed order.
ghost use Rattle.script_lang.specs.PrintedOrder.{TurnsAreReplayed};

/// The turn at each place of a history has this place as its rank, and the reply of the replay there.
pub fn turns_are_replayed()
    ensures { TurnsAreReplayed }
{}
