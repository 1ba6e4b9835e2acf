//! That the ends of a command that opens a store exclude each other: with status 0 and 4 the disks
//! hold a store, with 5 they are damaged, and with 10 both are empty.
ghost use Rattle.podctl_commands.specs.Laws.{StoreOrDamaged, StoreOrEmpty, DamagedOrEmpty};
ghost use Rattle.podctl_commands.specs.Laws.{DamagedOnce};

use journal_pair::{
    store_damaged_once, store_empty_only, store_stands_once, store_stands_or_damaged,
};

/// A command that finds a store on its disks can't find them damaged, too.
pub fn store_or_damaged()
    ensures { StoreOrDamaged }
{
    store_stands_once();
    store_stands_or_damaged();
}

/// A command that finds a store on its disks can't find both empty, too.
pub fn store_or_empty()
    ensures { StoreOrEmpty }
{
    store_empty_only();
}

/// A command that finds both of its disks empty can't find them damaged, too.
pub fn damaged_or_empty()
    ensures { DamagedOrEmpty }
{
    store_empty_only();
}

/// A command finds its two disks damaged at one place at most.
pub fn damaged_once()
    ensures { DamagedOnce }
{
    store_stands_once();
    store_stands_or_damaged();
    store_damaged_once();
}
