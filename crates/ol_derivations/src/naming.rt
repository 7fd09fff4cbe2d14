//! The free names of two trees.

ghost use Rattle.std.specs.Prelude.{◌≡◌, IfOk};
ghost use Rattle.ol_derivations.specs.Heads.{all_names};

use ol_limits::NoMemory;
use ol_term::Names;
use std::alloc::Global;

/// The free names of two trees, each once. `NoMemory`: no memory was found.
pub fn all_names(alloc: Global, a: &Names, b: &Names) -> Result<Names, NoMemory>
    ensures { IfOk result (λ all. all ≡ all_names (record { a = a.now; b = b.now })) }
{
    let mut all = Names::new(alloc);
    all.add_all(a)?;
    all.add_all(b)?;
    Ok(all)
}
