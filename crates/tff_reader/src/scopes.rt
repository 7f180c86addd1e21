//! What is bound: the variables of quantifiers, by their names.
ghost use Rattle.std.specs.Prelude.{◌≡◌, [], ◌∷◌, drop, List, OnOk};
ghost use Rattle.tff_reader.specs.Scopes as spec;
ghost use Rattle.tff_reader.specs.Bindings.{Binds};

use indexmap::IndexMap;
use std::alloc::{AllocError, Global};
use term_base::Variable;

/// A binder in force.
#[derive(Drop)]
pub(crate) struct Binding {
    name: Vec<u8>,
    /// The variable that the name is bound to outside of it.
    hidden: Option<Variable>,
}

/// The binders in force.
#[derive(Drop)]
pub(crate) struct Scope {
    /// The binders, the inner ones last.
    bindings: Vec<Binding>,
    /// The variable that each name is bound to, None where it no longer is.
    variables: IndexMap<Vec<u8>, Option<Variable>>,
}

impl Scope {
    /// Nothing is bound.
    pub(crate) fn new(alloc: Global) -> Scope
        ensures { Binds result [] }
    {
        Scope {
            bindings: Vec::new(alloc),
            variables: IndexMap::new(alloc),
        }
    }

    /// The variable that a name is bound to.
    pub(crate) fn variable(&self, name: &[u8]) -> Option<Variable>
        ensures { (scope : spec.Scope) → Binds self.now scope → result ≡ spec.bound_by scope name.now }
    {
        match self.variables.get(name) {
            Some(variable) => *variable,
            None => None,
        }
    }

    /// Binds a name to a variable.
    pub(crate) fn enter(
        &mut self,
        alloc: Global,
        name: &[u8],
        variable: Variable,
    ) -> Result<(), AllocError>
        ensures { (scope : spec.Scope) → Binds self.old scope
            → OnOk result (Binds self.new (record { name = name.now; variable = variable } ∷ scope)) }
    {
        let hidden = self.variable(name);
        self.variables
            .insert(Vec::from_slice(alloc, name)?, Some(variable))?;
        self.bindings.push(Binding {
            name: Vec::from_slice(alloc, name)?,
            hidden,
        })?;
        Ok(())
    }

    /// Ends the innermost binding.
    fn leave_one(&mut self) -> Result<(), AllocError>
        ensures { (scope : spec.Scope) → Binds self.old scope → OnOk result (Binds self.new (drop 1 scope)) }
    {
        match self.bindings.pop() {
            Some(binding) => {
                self.variables.insert(binding.name, binding.hidden)?;
                Ok(())
            }
            None => Ok(()),
        }
    }

    /// Ends the innermost bindings, so many of them.
    pub(crate) fn leave(&mut self, count: usize) -> Result<(), AllocError>
        ensures { (scope : spec.Scope) → Binds self.old scope → OnOk result (Binds self.new (drop count scope)) }
    {
        for _ in 0..count {
            self.leave_one()?;
        }
        Ok(())
    }
}
