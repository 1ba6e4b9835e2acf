//! The comparisons of a counted search.
ghost use Rattle.std.specs.Prelude.{◌≡◌, ◌<◌};

use pod_pages::{Steps, Version};
use pod_path::Path;
use std::marker::Brand;
use std::sync::ledger::{Blank, Ledger};

/// The comparisons of one search, on a count of its own.
fn steps_on<L: Ledger>(version: &Version, path: &Path, blank: Blank) -> u64
    requires name { blank.name ≡ L.name }
    requires parts { blank.parts ≡ L.parts }
    requires some { 0 < blank.parts }
{
    let mut steps = Steps::<L>::new(blank);
    let _found = version.find_counted(path, &mut steps);
    steps.count()
}

/// The comparisons of one search.
pub(crate) fn steps_of(version: &Version, path: &Path) -> u64 {
    steps_on::<Brand>(version, path, Blank::new(1))
}
