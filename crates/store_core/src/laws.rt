// A law of openings, as the contract of a function that does nothing.
ghost use Rattle.std.specs.Prelude.{◌≡◌, ℕ, List, length, Some};
ghost use Rattle.key_cells.specs.declared.state.CellState as cell;
ghost use Rattle.key_cells.specs.Prelude.{cell_count};
ghost use Rattle.store_model.specs.Prelude.{OpenedKey};
ghost use Rattle.store_core.specs.Start.{AreOpened};

/// Where a disk tells its bytes, these and the directory of an opening say which keys were found, and in which order: every
/// start has the same.
pub fn the_start_is_the_disks()
    ensures { (image : List ℕ) (slots : List cell.CellState) (found other : List OpenedKey) → length slots ≡ cell_count →
        AreOpened (Some image) slots found → AreOpened (Some image) slots other → found ≡ other }
{}
