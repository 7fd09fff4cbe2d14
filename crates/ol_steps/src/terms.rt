//! Terms with names.

ghost use Rattle.std.specs.Prelude.{◌≡◌, IfOk};
ghost use Rattle.ol_parse.specs.Grammar as named;
ghost use Rattle.ol_steps.specs.Terms.{named_of};

use ol_limits::NoMemory;
use std::alloc::Global;

/// A term whose binders and occurrences have names. `Abstraction(x, t)` binds `x` in `t`, and
/// `Application(f, a)` is `f` applied to `a`.
#[derive(Drop)]
pub enum NamedTerm {
    Name(Vec<u8>),
    Abstraction(Vec<u8>, Box<NamedTerm>),
    Application(Box<NamedTerm>, Box<NamedTerm>),
}

impl NamedTerm {
    /// The abstraction of a name over a body. `NoMemory`: no memory was found.
    pub fn abstraction(
        alloc: Global,
        binder: Vec<u8>,
        body: NamedTerm,
    ) -> Result<NamedTerm, NoMemory>
        ensures { IfOk result (λ t. named_of t ≡ named.lam binder.items (named_of body)) }
    {
        let body = Box::new(alloc, body)?;
        Ok(NamedTerm::Abstraction(binder, body))
    }

    /// The application of a function to an argument. `NoMemory`: no memory was found.
    pub fn application(
        alloc: Global,
        function: NamedTerm,
        argument: NamedTerm,
    ) -> Result<NamedTerm, NoMemory>
        ensures { IfOk result (λ t. named_of t
            ≡ named.app (named_of function) (named_of argument)) }
    {
        let function = Box::new(alloc, function)?;
        let argument = Box::new(alloc, argument)?;
        Ok(NamedTerm::Application(function, argument))
    }
}
