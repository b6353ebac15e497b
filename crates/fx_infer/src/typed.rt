//! Scripts whose statements all have types.

ghost use Rattle.std.specs.Prelude.{◌≡◌, ◌<◌, length, IfOk, IfErr};
ghost use Rattle.fx_ast.specs.Shape.{script_tree};
ghost use Rattle.fx_infer.specs.Script.{HasTyping};
ghost use Rattle.fx_infer.specs.Statements.{IsFault};

use crate::script::first_untyped;
use crate::stop::Stop;
use fx_ast::Script;
use std::alloc::Global;

/// A script that has a typing.
#[derive(Drop)]
pub struct Typed {
    script: Script,
}

impl Typed {
    /// The script as it was handed in.
    pub fn script(&self) -> &Script
        ensures { result.now ≡ self.now.script }
    {
        &self.script
    }
}

/// Why a script wasn't typed.
#[derive(Clone, Copy, Debug, PartialEq, Eq)]
pub enum InferFault {
    /// The first statement without a typing, counted from 1.
    IllTyped { statement: u32 },
    Memory,
    /// A statement has a form that inference doesn't know yet.
    NotYet,
}

impl From<Stop> for InferFault {
    ghost use Rattle.std.specs.Prelude.{◌≡◌};
    ghost use Rattle.fx_infer.specs.Statements.{fault_of};

    ghost from_gives = { λ s e. e ≡ fault_of s };

    fn from(stop: Stop) -> InferFault {
        match stop {
            Stop::Memory => InferFault::Memory,
            Stop::NotYet => InferFault::NotYet,
        }
    }
}

/// The script with the promise that it has a typing, or the first statement without one.
pub fn infer(alloc: Global, script: Script) -> Result<Typed, InferFault>
    requires { length script.statements < 4294967295 }
    ensures ok { IfOk result (λ t. HasTyping (script_tree script).statements × (t.script ≡ script)) }
    ensures err { IfErr result (λ f. IsFault f (script_tree script).statements) }
{
    match first_untyped(alloc, script.statements.as_slice())? {
        Some(statement) => Err(InferFault::IllTyped { statement }),
        None => Ok(Typed { script }),
    }
}
