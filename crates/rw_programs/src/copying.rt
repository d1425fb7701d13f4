//! Copies, which equal what they copy.

ghost use Rattle.std.specs.Prelude.{◌≡◌, IfOk};

use crate::applied::{Applied, Child, Context};
use crate::prog::{Arm, Code, ModCode, Param, Pin, ProcCode, Prog, Spec};
use rw_items::{Boxed, Items};
use rw_terms::copying::copy_terms;
use rw_terms::name::Name;
use rw_terms::sequent::Sequent;
use std::alloc::{AllocError, Global};

impl Spec {
    /// The same specification again.
    pub fn copy(&self, alloc: Global) -> Result<Spec, AllocError>
        ensures { IfOk result (λ w. w ≡ self.now) }
    {
        Ok(Spec {
            frame: copy_list(alloc, self.frame.as_slice())?,
            pre: self.pre.copy(alloc)?,
            post: self.post.copy(alloc)?,
        })
    }
}

impl Pin {
    /// The same constant again.
    pub fn copy(&self, alloc: Global) -> Result<Pin, AllocError>
        ensures { IfOk result (λ p. p ≡ self.now) }
    {
        Ok(Pin {
            name: self.name.copy(),
            term: self.term.copy(alloc)?,
        })
    }
}

impl Prog {
    /// The same program again.
    #[cycle(copy_prog)]
    pub fn copy(&self, alloc: Global) -> Result<Prog, AllocError>
        ensures { IfOk result (λ c. c ≡ self.now) }
    {
        match self {
            Prog::Spec(spec) => Ok(Prog::Spec(spec.copy(alloc)?)),
            Prog::Kid(i) => Ok(Prog::Kid(*i)),
            Prog::Skip => Ok(Prog::Skip),
            Prog::Assign(names, terms) => Ok(Prog::Assign(
                copy_list(alloc, names.as_slice())?,
                copy_terms(alloc, terms.as_slice())?,
            )),
            Prog::Seq(first, second) => Ok(Prog::Seq(again(alloc, first)?, again(alloc, second)?)),
            Prog::If(arms) => Ok(Prog::If(copy_arms(alloc, arms.as_slice())?)),
            Prog::Do(variant, arms) => {
                let variant = Boxed::new(alloc, variant.copy(alloc)?)?;
                let arms = copy_arms(alloc, arms.as_slice())?;
                Ok(Prog::Do(variant.into_inner(), arms))
            }
            Prog::Block(name, sort, body) => Ok(Prog::Block(
                name.copy(),
                *sort,
                again(alloc, body)?,
            )),
            Prog::Con(pins, body) => Ok(Prog::Con(
                copy_pins(alloc, pins.as_slice())?,
                again(alloc, body)?,
            )),
            Prog::Call(name, args, results) => Ok(Prog::Call(
                name.copy(),
                copy_terms(alloc, args.as_slice())?,
                copy_list(alloc, results.as_slice())?,
            )),
            Prog::OpCall(module, name, args, results) => Ok(Prog::OpCall(
                module.copy(),
                name.copy(),
                copy_terms(alloc, args.as_slice())?,
                copy_list(alloc, results.as_slice())?,
            )),
            Prog::ModBlock(module, body) => Ok(Prog::ModBlock(module.copy(), again(alloc, body)?)),
        }
    }
}

#[cycle(copy_prog)]
fn again(alloc: Global, prog: &Boxed<Prog>) -> Result<Boxed<Prog>, AllocError>
    ensures { IfOk result (λ c. c ≡ prog.now) }
{
    Boxed::new(alloc, prog.get().copy(alloc)?)
}

impl Arm {
    /// The same guard and program again.
    #[cycle(copy_prog)]
    pub fn copy(&self, alloc: Global) -> Result<Arm, AllocError>
        ensures { IfOk result (λ a. a ≡ self.now) }
    {
        let guard = Boxed::new(alloc, self.guard.copy(alloc)?)?;
        let body = self.body.copy(alloc)?;
        Ok(Arm {
            guard: guard.into_inner(),
            body,
        })
    }
}

/// The same guards and programs again.
#[cycle(copy_prog)]
pub fn copy_arms(alloc: Global, arms: &[Arm]) -> Result<Items<Arm>, AllocError>
    ensures { IfOk result (λ copies. copies ≡ arms.now) }
{
    let mut copies = Items::new(alloc);
    for arm in arms {
        copies.push(arm.copy(alloc)?)?;
    }
    Ok(copies)
}

impl Param {
    /// The same declaration again. It takes no memory.
    pub fn copy(&self) -> Param
        ensures { result ≡ self.now }
    {
        Param {
            name: self.name.copy(),
            sort: self.sort,
        }
    }
}

/// The same names again.
pub fn copy_list(alloc: Global, names: &[Name]) -> Result<Items<Name>, AllocError>
    ensures { IfOk result (λ ns. ns ≡ names.now) }
{
    let mut copies = Items::new(alloc);
    for name in names {
        copies.push(name.copy())?;
    }
    Ok(copies)
}

/// The same constants again.
pub fn copy_pins(alloc: Global, pins: &[Pin]) -> Result<Items<Pin>, AllocError>
    ensures { IfOk result (λ ps. ps ≡ pins.now) }
{
    let mut copies = Items::new(alloc);
    for pin in pins {
        copies.push(pin.copy(alloc)?)?;
    }
    Ok(copies)
}

/// The same declarations again.
pub fn copy_params(alloc: Global, params: &[Param]) -> Result<Items<Param>, AllocError>
    ensures { IfOk result (λ ps. ps ≡ params.now) }
{
    let mut copies = Items::new(alloc);
    for param in params {
        copies.push(param.copy())?;
    }
    Ok(copies)
}

impl ProcCode {
    /// The same body again.
    pub fn copy(&self, alloc: Global) -> Result<ProcCode, AllocError>
        ensures { IfOk result (λ e. e ≡ self.now) }
    {
        Ok(ProcCode {
            name: self.name.copy(),
            place: self.place,
            values: copy_params(alloc, self.values.as_slice())?,
            results: copy_params(alloc, self.results.as_slice())?,
            body: self.body.copy(alloc)?,
        })
    }
}

/// The same bodies again.
pub fn copy_procs(alloc: Global, procs: &[ProcCode]) -> Result<Items<ProcCode>, AllocError>
    ensures { IfOk result (λ es. es ≡ procs.now) }
{
    let mut copies = Items::new(alloc);
    for proc in procs {
        copies.push(proc.copy(alloc)?)?;
    }
    Ok(copies)
}

impl ModCode {
    /// The same bodies of a module again.
    pub fn copy(&self, alloc: Global) -> Result<ModCode, AllocError>
        ensures { IfOk result (λ d. d ≡ self.now) }
    {
        let state = copy_params(alloc, self.state.as_slice())?;
        let operations = copy_procs(alloc, self.operations.as_slice())?;
        Ok(ModCode {
            name: self.name.copy(),
            place: self.place,
            state,
            start: self.start.copy(alloc)?,
            operations,
        })
    }
}

/// The same modules again.
pub fn copy_modules(alloc: Global, modules: &[ModCode]) -> Result<Items<ModCode>, AllocError>
    ensures { IfOk result (λ ds. ds ≡ modules.now) }
{
    let mut copies = Items::new(alloc);
    for module in modules {
        copies.push(module.copy(alloc)?)?;
    }
    Ok(copies)
}

impl Code {
    /// The same collected program again.
    pub fn copy(&self, alloc: Global) -> Result<Code, AllocError>
        ensures { IfOk result (λ c. c ≡ self.now) }
    {
        let procs = copy_procs(alloc, self.procs.as_slice())?;
        let modules = copy_modules(alloc, self.modules.as_slice())?;
        Ok(Code {
            main: self.main.copy(alloc)?,
            procs,
            modules,
        })
    }
}

impl Context {
    /// The same context again.
    pub fn copy(&self, alloc: Global) -> Result<Context, AllocError>
        ensures { IfOk result (λ c. c ≡ self.now) }
    {
        Ok(Context {
            scope: self.scope.copy(alloc)?,
            opened: copy_list(alloc, self.opened.as_slice())?,
            order: self.order,
            inner: self.inner,
        })
    }
}

impl Child {
    /// The same kid's specification again, where it stands.
    pub fn copy(&self, alloc: Global) -> Result<Child, AllocError>
        ensures { IfOk result (λ c. c ≡ self.now) }
    {
        Ok(Child {
            context: self.context.copy(alloc)?,
            spec: self.spec.copy(alloc)?,
        })
    }
}

/// The same kids' specifications again.
pub fn copy_children(alloc: Global, children: &[Child]) -> Result<Items<Child>, AllocError>
    ensures { IfOk result (λ cs. cs ≡ children.now) }
{
    let mut copies = Items::new(alloc);
    for child in children {
        copies.push(child.copy(alloc)?)?;
    }
    Ok(copies)
}

/// The same sequents again.
pub fn copy_sequents(alloc: Global, sequents: &[Sequent]) -> Result<Items<Sequent>, AllocError>
    ensures { IfOk result (λ qs. qs ≡ sequents.now) }
{
    let mut copies = Items::new(alloc);
    for sequent in sequents {
        copies.push(sequent.copy(alloc)?)?;
    }
    Ok(copies)
}

impl Applied {
    /// What a law made, again.
    pub fn copy(&self, alloc: Global) -> Result<Applied, AllocError>
        ensures { IfOk result (λ a. a ≡ self.now) }
    {
        let children = copy_children(alloc, self.children.as_slice())?;
        let obligations = copy_sequents(alloc, self.obligations.as_slice())?;
        Ok(Applied {
            skeleton: self.skeleton.copy(alloc)?,
            children,
            obligations,
        })
    }
}
