//! Terms of the lambda calculus without names.

/// A term in de Bruijn notation (de Bruijn, 1972).
///
/// `Var(k)` is bound by the k-th enclosing abstraction, where the innermost abstraction is number
/// 0. `Free(k)` is the k-th free name, from 0. `Lam(t)` is the abstraction of `t`, and `App(f, a)`
/// is `f` applied to `a`.
#[derive(Drop)]
pub enum Term {
    Var(u32),
    Free(u32),
    Lam(Box<Term>),
    App(Box<Term>, Box<Term>),
}
