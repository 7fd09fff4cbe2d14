//! The names of a term's binders.

ghost use Rattle.std.specs.Prelude.{◌≡◌, IfOk};
ghost use Rattle.ol_steps.specs.Binders as binders;
ghost use Rattle.ol_steps.specs.Binders.{names_in_argument, names_in_body, names_in_function};
ghost use Rattle.ol_steps.specs.Trees.{binders_in};

use ol_limits::NoMemory;
use std::alloc::Global;

/// The names of a term's binders, in the term's shape. A `Leaf` belongs to a variable or a free
/// name, `Binder(x, s)` to the abstraction of `x` over what `s` belongs to, and `Parts(r, s)` to
/// the application of what `r` belongs to.
#[derive(Drop)]
pub enum BinderTree {
    Leaf,
    Binder(Vec<u8>, Box<BinderTree>),
    Parts(Box<BinderTree>, Box<BinderTree>),
}

impl BinderTree {
    /// Those of an abstraction. `NoMemory`: no memory was found.
    pub fn binder(alloc: Global, name: &[u8], body: BinderTree) -> Result<BinderTree, NoMemory>
        ensures { IfOk result (λ t. binders_in t ≡ binders.lam name.now (binders_in body)) }
    {
        let name = Vec::from_slice(alloc, name)?;
        let body = Box::new(alloc, body)?;
        Ok(BinderTree::Binder(name, body))
    }

    /// Those of an application. `NoMemory`: no memory was found.
    pub fn parts(
        alloc: Global,
        function: BinderTree,
        argument: BinderTree,
    ) -> Result<BinderTree, NoMemory>
        ensures { IfOk result (λ t. binders_in t
            ≡ binders.app (binders_in function) (binders_in argument)) }
    {
        let function = Box::new(alloc, function)?;
        let argument = Box::new(alloc, argument)?;
        Ok(BinderTree::Parts(function, argument))
    }
}

/// A copy. `NoMemory`: no memory was found.
pub fn copied(alloc: Global, tree: &BinderTree) -> Result<BinderTree, NoMemory>
    ensures { IfOk result (λ t. binders_in t ≡ binders_in tree.now) }
{
    match tree {
        BinderTree::Leaf => Ok(BinderTree::Leaf),
        BinderTree::Binder(name, body) => {
            let body = copied(alloc, body)?;
            let tree = BinderTree::binder(alloc, name, body)?;
            Ok(tree)
        }
        BinderTree::Parts(function, argument) => {
            let function = copied(alloc, function)?;
            let argument = copied(alloc, argument)?;
            let tree = BinderTree::parts(alloc, function, argument)?;
            Ok(tree)
        }
    }
}

pub fn names_in_body(binders: &BinderTree) -> &BinderTree
    ensures { binders_in result.now ≡ names_in_body (binders_in binders.now) }
{
    match binders {
        BinderTree::Binder(_, body) => body,
        _ => binders,
    }
}

pub fn names_in_function(binders: &BinderTree) -> &BinderTree
    ensures { binders_in result.now ≡ names_in_function (binders_in binders.now) }
{
    match binders {
        BinderTree::Parts(function, _) => function,
        _ => binders,
    }
}

pub fn names_in_argument(binders: &BinderTree) -> &BinderTree
    ensures { binders_in result.now ≡ names_in_argument (binders_in binders.now) }
{
    match binders {
        BinderTree::Parts(_, argument) => argument,
        _ => binders,
    }
}
