//! Call-by-need: beta steps of a machine with closures, each of which is reduced once.
//!
//! A term is never copied: a closure is a reference into it, with an environment. Environments, and
//! the arguments of a name, are chains of links in one table, so that what they have in common
//! stands once. What is still to be done is kept in lists, so that no call is as deep as the term.

ghost use Rattle.std.specs.Prelude.{◌≡◌, suc, ◌+◌, ◌<◌, [], ◌∷◌, ◌++◌, length, IfOk, OnOk, IfSome, IfNone, slice_get, slice_set};
ghost use Rattle.std.specs.Option.{option_map};
ghost use Rattle.ol_term.specs.Trees.{tree_of};
ghost use Rattle.ol_counts.specs.Machines.{goes, came, has, applied, begun, behind, behind_link, entered, entered_link, first_link, has_name, is_ended, linked, named, next, IsNeedCount, shown, went, done};
ghost use Rattle.ol_counts.specs.HeldMachines.{cell_of, frame_of, link_of, machine_of, weak_of, HasRoom};

use ol_families::Count;
use ol_limits::NoMemory;
use ol_term::Term;
use std::alloc::Global;

/// A cell of a chain, and the chain behind it. A chain is a number: 0 is the empty one, and k + 1
/// begins with link k.
#[derive(Clone, Copy)]
struct Link {
    cell: u32,
    behind: u32,
}

/// A weak head normal form: the body of an abstraction with its environment, or a name with its
/// arguments, the last one first.
#[derive(Clone, Copy, Drop)]
enum Weak<'a> {
    Function(&'a Term, u32),
    Name(u32),
}

/// A term that waits, with its environment, or what came out of it.
#[derive(Clone, Copy, Drop)]
enum Cell<'a> {
    Waits(&'a Term, u32),
    Has(Weak<'a>),
}

/// What is done with a weak head normal form once it comes: it is applied to the argument in a
/// cell, or written over a cell.
#[derive(Clone, Copy, Drop)]
enum Frame {
    Argument(u32),
    Write(u32),
}

/// A term is reduced in an environment, or a weak head normal form has come.
#[derive(Clone, Copy, Drop)]
enum Control<'a> {
    Goes(&'a Term, u32),
    Came(Weak<'a>),
}

/// The machine. What comes next stands last in `stack`, and in `left`, the cells that the normal
/// form still goes through.
#[derive(Drop)]
struct Reducer<'a> {
    control: Control<'a>,
    stack: Vec<Frame>,
    left: Vec<u32>,
    cells: Vec<Cell<'a>>,
    links: Vec<Link>,
    steps: u32,
}

impl<'a> Reducer<'a> {
    fn new(alloc: Global, term: &'a Term) -> Reducer<'a>
        ensures { machine_of result ≡ begun (tree_of term.now) }
    {
        Reducer {
            control: Control::Goes(term, 0),
            stack: Vec::new(alloc),
            left: Vec::new(alloc),
            cells: Vec::new(alloc),
            links: Vec::new(alloc),
            steps: 0,
        }
    }

    fn goes(&mut self, term: &'a Term, environment: u32)
        ensures { machine_of self.new
            ≡ record (machine_of self.old) { control = goes (tree_of term.now) environment } }
    {
        self.control = Control::Goes(term, environment);
    }

    fn came(&mut self, weak: Weak<'a>)
        ensures { machine_of self.new
            ≡ record (machine_of self.old) { control = came (weak_of weak.entry) } }
    {
        self.control = Control::Came(weak);
    }

    // Something to be done next.
    fn push(&mut self, frame: Frame) -> Result<(), NoMemory>
        ensures { OnOk result (machine_of self.new ≡ record (machine_of self.old) {
          stack = frame_of frame ∷ (machine_of self.old).stack;
        }) }
    {
        self.stack.push(frame)?;
        Ok(())
    }

    // Takes out what is to be done next.
    fn pop(&mut self) -> Option<Frame>
        ensures some { IfSome result (λ frame. machine_of self.old ≡ record (machine_of self.new) {
          stack = frame_of frame ∷ (machine_of self.new).stack;
        }) }
        ensures none { IfNone result ((machine_of self.old).stack ≡ []) }
        ensures stays { IfNone result (machine_of self.new ≡ machine_of self.old) }
    {
        self.stack.pop()
    }

    // A cell that is still to be gone through, before those that are.
    fn leave(&mut self, at: u32) -> Result<(), NoMemory>
        ensures { OnOk result (machine_of self.new ≡ record (machine_of self.old) {
          left = at ∷ (machine_of self.old).left;
        }) }
    {
        self.left.push(at)?;
        Ok(())
    }

    // Takes out the cell that is to be gone through next.
    fn take(&mut self) -> Option<u32>
        ensures some { IfSome result (λ at. machine_of self.old ≡ record (machine_of self.new) {
          left = at ∷ (machine_of self.new).left;
        }) }
        ensures none { IfNone result ((machine_of self.old).left ≡ []) }
        ensures stays { IfNone result (machine_of self.new ≡ machine_of self.old) }
    {
        self.left.pop()
    }

    // A new cell.
    fn add(&mut self, cell: Cell<'a>) -> Result<u32, NoMemory>
        requires room { length (machine_of self.old).cells < 4294967295 }
        ensures machine { OnOk result (machine_of self.new ≡ record (machine_of self.old) {
          cells = (machine_of self.old).cells ++ cell_of cell.entry ∷ [];
        }) }
        ensures at { IfOk result (λ at. at ≡ length (machine_of self.old).cells) }
    {
        let at = self.cells.len() as u32;
        self.cells.push(cell)?;
        Ok(at)
    }

    // A new chain.
    fn link(&mut self, cell: u32, behind: u32) -> Result<u32, NoMemory>
        requires room { length (machine_of self.old).links < 4294967295 }
        ensures machine { OnOk result
            (machine_of self.new ≡ linked (machine_of self.old) cell behind) }
        ensures chain { IfOk result (λ chain. chain ≡ suc (length (machine_of self.old).links)) }
    {
        self.links.push(Link { cell, behind })?;
        Ok(self.links.len() as u32)
    }

    // Writes what came over a cell.
    fn write(&mut self, at: u32, weak: Weak<'a>)
        ensures { machine_of self.new ≡ record (machine_of self.old) {
          cells = slice_set (machine_of self.old).cells at (has (weak_of weak.entry));
        } }
    {
        if (at as usize) < self.cells.len() {
            self.cells[at as usize] = Cell::Has(weak);
        }
    }

    // What a cell has.
    fn held(&self, at: u32) -> Option<Cell<'a>>
        ensures { option_map cell_of result ≡ slice_get (machine_of self.now).cells at }
    {
        self.cells.get(at as usize).copied()
    }

    fn link_at(&self, k: u32) -> Option<Link>
        ensures { option_map link_of result ≡ slice_get (machine_of self.now).links k }
    {
        self.links.get(k as usize).copied()
    }

    // The first link of a chain.
    fn first(&self, chain: u32) -> Option<Link>
        ensures { option_map link_of result ≡ first_link (machine_of self.now).links chain }
    {
        if chain == 0 {
            return None;
        }
        self.link_at(chain - 1)
    }

    // The chain behind the first link of a chain.
    fn rest(&self, chain: u32) -> u32
        ensures { result ≡ behind_link (first_link (machine_of self.now).links chain) }
    {
        match self.first(chain) {
            Some(link) => link.behind,
            None => 0,
        }
    }

    // The chain behind so many links.
    fn behind(&self, links: u32, chain: u32) -> u32
        ensures { result ≡ behind (machine_of self.now).links links chain }
    {
        let mut rest = chain;
        for _k in 0..links {
            rest = self.rest(rest);
        }
        rest
    }

    // Goes on with a cell.
    fn enter(&mut self, at: u32) -> Result<(), NoMemory>
        ensures { OnOk result (machine_of self.new ≡ entered (machine_of self.old) at) }
    {
        match self.held(at) {
            Some(Cell::Waits(term, environment)) => {
                self.push(Frame::Write(at))?;
                self.goes(term, environment);
                Ok(())
            }
            Some(Cell::Has(weak)) => {
                self.came(weak);
                Ok(())
            }
            None => {
                self.came(Weak::Name(0));
                Ok(())
            }
        }
    }

    // Goes on with the cell of a variable.
    fn look_up(&mut self, variable: u32, environment: u32) -> Result<(), NoMemory>
        ensures { OnOk result (machine_of self.new ≡ entered_link (machine_of self.old)
            (first_link (machine_of self.old).links
            (behind (machine_of self.old).links variable environment))) }
    {
        match self.first(self.behind(variable, environment)) {
            Some(link) => self.enter(link.cell),
            None => {
                self.came(Weak::Name(0));
                Ok(())
            }
        }
    }

    // Goes on with a term in an environment.
    fn go(&mut self, term: &'a Term, environment: u32) -> Result<(), NoMemory>
        requires room { HasRoom (machine_of self.old) }
        ensures { OnOk result
            (machine_of self.new ≡ went (machine_of self.old) (tree_of term.now) environment) }
    {
        match term {
            Term::Var(k) => self.look_up(*k, environment),
            Term::Free(_) => {
                self.came(Weak::Name(0));
                Ok(())
            }
            Term::Lam(body) => {
                self.came(Weak::Function(body, environment));
                Ok(())
            }
            Term::App(function, argument) => {
                let at = self.add(Cell::Waits(argument, environment))?;
                self.push(Frame::Argument(at))?;
                self.goes(function, environment);
                Ok(())
            }
        }
    }

    // Applies what came to the argument in a cell.
    fn apply(&mut self, weak: Weak<'a>, at: u32) -> Result<(), NoMemory>
        requires room { HasRoom (machine_of self.old) }
        ensures { OnOk result
            (machine_of self.new ≡ applied (machine_of self.old) (weak_of weak.entry) at) }
    {
        match weak {
            Weak::Function(body, environment) => {
                let inside = self.link(at, environment)?;
                self.goes(body, inside);
                self.steps += 1;
                Ok(())
            }
            Weak::Name(arguments) => {
                let more = self.link(at, arguments)?;
                self.came(Weak::Name(more));
                Ok(())
            }
        }
    }

    // Goes on with the arguments of a name, or else with what is left.
    fn pass(&mut self, arguments: u32) -> Result<(), NoMemory>
        ensures { OnOk result (machine_of self.new ≡ named (machine_of self.old)
            (first_link (machine_of self.old).links arguments)) }
    {
        match self.first(arguments) {
            Some(link) => {
                self.leave(link.cell)?;
                self.came(Weak::Name(link.behind));
                Ok(())
            }
            None => match self.take() {
                Some(at) => self.enter(at),
                None => Ok(()),
            },
        }
    }

    // Goes on into what came, which is in the normal form.
    fn show(&mut self, weak: Weak<'a>) -> Result<(), NoMemory>
        requires room { HasRoom (machine_of self.old) }
        ensures { OnOk result
            (machine_of self.new ≡ shown (machine_of self.old) (weak_of weak.entry)) }
    {
        match weak {
            Weak::Function(body, environment) => {
                let fresh = self.add(Cell::Has(Weak::Name(0)))?;
                let inside = self.link(fresh, environment)?;
                self.goes(body, inside);
                Ok(())
            }
            Weak::Name(arguments) => self.pass(arguments),
        }
    }

    // Does what is next with what came.
    #[tactic(auto, using(crate::proofs::Moves::step_argument, crate::proofs::Moves::step_write, crate::proofs::Moves::step_shown))]
    fn come(&mut self, weak: Weak<'a>) -> Result<(), NoMemory>
        requires room { HasRoom (machine_of self.old) }
        ensures { OnOk result (machine_of self.new
            ≡ done (machine_of self.old) (weak_of weak.entry) (machine_of self.old).stack) }
    {
        match self.pop() {
            Some(Frame::Argument(at)) => self.apply(weak, at),
            Some(Frame::Write(at)) => {
                self.write(at, weak);
                Ok(())
            }
            None => self.show(weak),
        }
    }

    // Makes a move.
    fn step(&mut self) -> Result<(), NoMemory>
        requires room { HasRoom (machine_of self.old) }
        ensures { OnOk result (machine_of self.new ≡ next (machine_of self.old)) }
    {
        match self.control {
            Control::Goes(term, environment) => self.go(term, environment),
            Control::Came(weak) => self.come(weak),
        }
    }

    // Whether a name without arguments has come.
    fn has_name(&self) -> bool
        ensures { result ≡ has_name (machine_of self.now).links (machine_of self.now).control }
    {
        match self.control {
            Control::Came(weak) => match weak {
                Weak::Name(arguments) => self.first(arguments).is_none(),
                Weak::Function(_, _) => false,
            },
            Control::Goes(_, _) => false,
        }
    }

    // Whether the machine has come to its end.
    #[tactic(auto, using(crate::proofs::Holding::stack_length, crate::proofs::Holding::left_length))]
    fn is_ended(&self) -> bool
        ensures { result ≡ is_ended (machine_of self.now) }
    {
        self.stack.is_empty() && self.left.is_empty() && self.has_name()
    }
}

/// How many beta steps lead from a term to its normal form by need, each closure being reduced at
/// most once, to weak head normal form (Sestoft, Deriving a lazy abstract machine, 1997). What
/// stands below an abstraction is reduced anew each time that the abstraction is applied.
///
/// The machine makes at most `moves` moves, of which some are β-steps. The count is cut if the machine
/// doesn't end within these moves. A free variable is a name. No call is as deep as the term.
/// `NoMemory`: no memory was found.
pub fn steps_by_need(alloc: Global, term: &Term, moves: u32) -> Result<Count, NoMemory>
    ensures { IfOk result (λ c. IsNeedCount (tree_of term.now) moves c.number c.ended) }
{
    let mut machine = Reducer::new(alloc, term);
    for _made in 0..moves {
        if machine.is_ended() {
            return Ok(Count {
                number: machine.steps,
                ended: true,
            });
        }
        machine.step()?;
    }
    let ended = machine.is_ended();
    Ok(Count {
        number: machine.steps,
        ended,
    })
}
