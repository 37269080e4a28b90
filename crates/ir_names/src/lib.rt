//! What the names of a module stand for, in tables that are made once.
//!
//! [`ModuleNames`] has the named types, the globals and the functions that may be called, [`FunctionNames`]
//! the values and blocks of a function, [`Scopes`] both for all functions of a module. Each look-up then is
//! by the number of a name.
#![tactic(auto)]

mod firsts;
mod function;
mod module;
mod results;
mod scopes;
mod values;

pub use function::FunctionNames;
pub use module::ModuleNames;
pub use results::{ResultTy, inst_at, result_ty, type_of_site};
pub use scopes::Scopes;
